ghost use Rattle.mesh_border.specs.BorderLaw.{BorderOn};
ghost use Rattle.mesh_layer.specs.Layering.{seen};

use crate::border::Border;
use mesh_layer::layer::Layer;
use mesh_stream::event::Event;
use mesh_stream::stage::Stage;

// The border list of what a stage hands over.
pub fn border_list<S: Stage<Item = Event>>(below: S) -> Layer<S, Border>
    ensures { BorderOn 1024 4096 (seen S.Stage below) (seen ⟦<Layer<S, Border> as Stage>⟧ result) }
{
    Layer::new(below, Border::new())
}
