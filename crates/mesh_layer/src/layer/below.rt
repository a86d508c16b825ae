ghost use Rattle.std.specs.Prelude.{◌≡◌};
ghost use Rattle.mesh_layer.specs.Layering.{stage_below};

use super::Layer;
use crate::filter::Filter;
use mesh_stream::stage::Stage;

impl<S: Stage, F: Filter<In = S::Item>> Layer<S, F> {
    // The stage below. In every state the layer takes text just as that stage does: so its room is the bottom's.
    pub fn below(&self) -> &S
        ensures below { result.now ≡ stage_below self.now }
        ensures port { ⟦<Layer<S, F> as Stage>⟧.port self.now ≡ S.Stage.port result.now }
    {
        &self.below
    }
}
