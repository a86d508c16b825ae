ghost use Rattle.std.specs.Prelude.{◌≡◌, ℕ};
ghost use Rattle.mesh_stream.specs.declared.event.Event.{Event as MeshEvent};
ghost use Rattle.mesh_stream.specs.Meaning.{Outcome};
ghost use Rattle.mesh_rules.specs.Piling.{Rule, through};
ghost use Rattle.mesh_layer.specs.Law.{PutOn};
ghost use Rattle.mesh_layer.specs.Layering.{seen, Made};

use super::Layer;
use crate::filter::Filter;
use mesh_stream::event::Event;
use mesh_stream::stage::Stage;

impl<S: Stage, F: Filter<In = S::Item>> Layer<S, F> {
    // Puts a filter on a stage, with nothing to hand over yet.
    pub fn new(below: S, filter: F) -> Layer<S, F>
        ensures { Made (F.Filter.rewrites filter F.Filter.empty) (seen S.Stage below) (seen ⟦<Layer<S, F> as Stage>⟧ result) }
    {
        let rest = filter.no_rest();
        Layer {
            below,
            filter,
            rest,
            fault: None,
        }
    }
}

impl<S: Stage<Item = Event>, F: Filter<In = Event, Out = Event>> Layer<S, F> {
    // Puts a layer on a stage. Where its filter does what a rule says, it is one layer more of a pile.
    pub fn over(below: S, filter: F) -> Layer<S, F>
        ensures made { Made (F.Filter.rewrites filter F.Filter.empty) (seen S.Stage below) (seen ⟦<Layer<S, F> as Stage>⟧ result) }
        ensures rule { (limit : ℕ) (rule : Rule)
            → ((o : Outcome MeshEvent) → F.Filter.rewrites filter F.Filter.empty o ≡ through limit rule o)
            → PutOn limit rule (seen S.Stage below) (seen ⟦<Layer<S, F> as Stage>⟧ result) }
    {
        Layer::new(below, filter)
    }
}
