ghost use Rattle.std.specs.Prelude.{◌≡◌};

use super::Layer;
use crate::filter::Filter;
use mesh_stream::fault::Refusal;
use mesh_stream::stage::Inlet;

impl<S: Inlet, F: Filter<In = S::Item>> Inlet for Layer<S, F> {
    ghost takes_text = { λ l. S.Inlet.takes_text l.below };

    fn room(&self) -> usize {
        self.below.room()
    }

    fn feed(&mut self, piece: &[u8]) -> Result<usize, Refusal> {
        self.below.feed(piece)
    }

    fn close(&mut self) -> Result<(), Refusal> {
        self.below.close()
    }
}
