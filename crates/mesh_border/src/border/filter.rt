ghost use Rattle.std.specs.Prelude.{refl};
ghost use Rattle.mesh_border.specs.declared.border.Rest.TheVariants.{Nothing};
ghost use Rattle.mesh_border.specs.Making.{makes, makes_filters};

use crate::border::{Border, Rest};
use mesh_edges::edge::Edge;
use mesh_layer::fault::or_fault;
use mesh_layer::filter::Filter;
use mesh_stream::event::Event;
use mesh_stream::fault::{Fault, LayerName};
use mesh_stream::stage::Standing;

impl Filter for Border {
    type In = Event;

    type Out = Edge;

    type Rest = Rest;

    ghost empty = { Nothing };

    ghost rewrites = { makes };

    ghost filters = { makes_filters };

    ghost waits = { λ f. refl };

    fn no_rest(&self) -> Rest {
        Rest::Nothing
    }

    fn give(&mut self, rest: &mut Rest) -> Option<Edge> {
        match rest {
            Rest::Nothing => None,
            Rest::Found => {
                let edge = self.found.pop();
                if edge.is_none() {
                    *rest = Rest::Nothing;
                }
                edge
            }
        }
    }

    fn take(&mut self, item: Event) -> Result<Rest, Fault> {
        or_fault(self.judged(item), LayerName::Border, item)
    }

    fn stand(&self, below: Standing) -> Standing {
        self.judge.stand(LayerName::Border, below)
    }
}
