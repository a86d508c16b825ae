ghost use Rattle.mesh_layer.specs.Law.{PutOn};
ghost use Rattle.mesh_layer.specs.Layering.{seen};
ghost use Rattle.mesh_rules.specs.Piling.{checks, cleans, clips, compacts, renumbers};

use mesh_filters::check::Check;
use mesh_filters::clean::Clean;
use mesh_filters::clip::Clip;
use mesh_filters::compact::Compact;
use mesh_filters::renumber::Renumber;
use mesh_layer::layer::Layer;
use mesh_regions::region::Region;
use mesh_stream::event::Event;
use mesh_stream::stage::Stage;

// Hands over every event that it accepts.
pub fn check<S: Stage<Item = Event>>(below: S) -> Layer<S, Check>
    ensures { PutOn 1024 checks (seen S.Stage below) (seen ⟦<Layer<S, Check> as Stage>⟧ result) }
{
    Layer::over(below, Check::new())
}

// Removes degenerate triangles.
pub fn clean<S: Stage<Item = Event>>(below: S) -> Layer<S, Clean>
    ensures { PutOn 1024 cleans (seen S.Stage below) (seen ⟦<Layer<S, Clean> as Stage>⟧ result) }
{
    Layer::over(below, Clean::new())
}

// Keeps the vertices inside a region, and what names only kept vertices.
pub fn clip<S: Stage<Item = Event>, R: Region>(below: S, region: R) -> Layer<S, Clip<R>>
    ensures { PutOn 1024 (clips (R.Region.inside region)) (seen S.Stage below) (seen ⟦<Layer<S, Clip<R>> as Stage>⟧ result) }
{
    Layer::over(below, Clip::new(region))
}

// Keeps the vertices that some triangle names, numbers them in the order of their first mention, and hands each over just before it.
pub fn compact<S: Stage<Item = Event>>(below: S) -> Layer<S, Compact>
    ensures { PutOn 1024 compacts (seen S.Stage below) (seen ⟦<Layer<S, Compact> as Stage>⟧ result) }
{
    Layer::over(below, Compact::new())
}

// Numbers the vertices 1, 2, 3 and so on.
pub fn renumber<S: Stage<Item = Event>>(below: S) -> Layer<S, Renumber>
    ensures { PutOn 1024 renumbers (seen S.Stage below) (seen ⟦<Layer<S, Renumber> as Stage>⟧ result) }
{
    Layer::over(below, Renumber::new())
}
