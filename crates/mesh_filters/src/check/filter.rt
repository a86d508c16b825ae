ghost use Rattle.std.specs.Prelude.{refl, None};
ghost use Rattle.mesh_windows.specs.Working.{check_work};
ghost use Rattle.mesh_filters.specs.Handing.{events_of, Handed};
ghost use Rattle.mesh_filters.specs.Making.{check_filters, check_makes};

use crate::check::Check;
use mesh_judge::live::Live;
use mesh_layer::fault::or_fault;
use mesh_layer::filter::Filter;
use mesh_stream::event::Event;
use mesh_stream::fault::{Cause, Fault, LayerName};
use mesh_stream::stage::Standing;

impl Check {
    // Accepts an event and answers it, or says why not.
    fn judged(&mut self, item: Event) -> Result<Option<Event>, Cause>
        ensures { Handed events_of check_work self.old.judge 0 item result self.new.judge 0 }
    {
        match item {
            Event::Vertex { place, number, at } => {
                let note = ();
                self.judge.vertex(number, Live { place, at, note })?;
            }
            Event::Triangle { a, b, c, .. } => {
                self.judge.triangle(a, b, c)?;
            }
            Event::Finalization { vertex, .. } => {
                self.judge.finalization(vertex)?;
            }
        }
        Ok(Some(item))
    }
}

impl Filter for Check {
    type In = Event;

    type Out = Event;

    type Rest = Option<Event>;

    ghost empty = { None };

    ghost rewrites = { check_makes };

    ghost filters = { check_filters };

    ghost waits = { λ f. refl };

    fn no_rest(&self) -> Option<Event> {
        None
    }

    fn give(&mut self, rest: &mut Option<Event>) -> Option<Event> {
        rest.take()
    }

    fn take(&mut self, item: Event) -> Result<Option<Event>, Fault> {
        or_fault(self.judged(item), LayerName::Check, item)
    }

    fn stand(&self, below: Standing) -> Standing {
        self.judge.stand(LayerName::Check, below)
    }
}
