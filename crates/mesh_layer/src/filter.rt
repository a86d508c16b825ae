ghost use Rattle.std.specs.Prelude.{◌≡◌, []};
ghost use Rattle.mesh_stream.specs.declared.stage.Standing.TheVariants.{Waiting};
ghost use Rattle.mesh_stream.specs.Meaning.{Outcome, outcome};
ghost use Rattle.mesh_layer.specs.Filtering.{Filtering, Gives, Takes, StandsSo};

use mesh_stream::fault::Fault;
use mesh_stream::stage::Standing;

// What a layer makes of the items below it, one by one.
pub trait Filter {
    type In;

    type Out;

    // What is still to be handed over for the item that was taken last.
    type Rest: Drop;

    // the rest where all is handed over
    ghost empty: { Self.Rest };

    // What it makes of all that may still come from below, with this rest in front.
    ghost rewrites: { Self → Self.Rest → Outcome Self.In → Outcome Self.Out };

    // What every filter keeps.
    ghost filters: { (f : Self) (rest : Self.Rest) → Filtering (rewrites f rest) };

    // Having handed over all, it waits over a stage that waits.
    ghost waits: { (f : Self) → rewrites f empty (outcome [] Waiting) ≡ outcome [] Waiting };

    // The rest before the first item.
    fn no_rest(&self) -> Self::Rest
        ensures { result ≡ empty };

    // Hands over the next item of the rest, if there is one.
    fn give(&mut self, rest: &mut Self::Rest) -> Option<Self::Out>
        ensures { Gives empty (rewrites self.old) rest.old result rest.new (rewrites self.new) };

    // Takes an item of the stage below, once all is handed over, and answers what is to be handed over for it; or why the layer is at
    // fault, and then it changes nothing.
    fn take(&mut self, item: Self::In) -> Result<Self::Rest, Fault>
        ensures { Takes empty (rewrites self.old) item result (rewrites self.new) };

    // How the layer stands over a stage that has no more items and stands so itself.
    fn stand(&self, below: Standing) -> Standing
        ensures { StandsSo empty (rewrites self.now) below result };
}
