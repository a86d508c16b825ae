ghost use Rattle.std.specs.Prelude.{refl, None};
ghost use Rattle.mesh_windows.specs.Working.{clean_work};
ghost use Rattle.mesh_filters.specs.Handing.{events_of, Handed};
ghost use Rattle.mesh_filters.specs.Making.{clean_filters, clean_makes};

use crate::clean::Clean;
use crate::clean::degenerate::is_degenerate;
use mesh_judge::live::{Corners, Live};
use mesh_layer::fault::or_fault;
use mesh_layer::filter::Filter;
use mesh_stream::event::Event;
use mesh_stream::fault::{Cause, Fault, LayerName};
use mesh_stream::stage::Standing;

impl Clean {
    // Accepts an event and answers it unless it is a degenerate triangle, or says why not.
    fn judged(&mut self, item: Event) -> Result<Option<Event>, Cause>
        ensures { Handed events_of clean_work self.old.judge 0 item result self.new.judge 0 }
    {
        let sound = match item {
            Event::Vertex { place, number, at } => {
                let note = ();
                self.judge.vertex(number, Live { place, at, note })?;
                true
            }
            Event::Triangle { a, b, c, .. } => {
                let Corners { a, b, c } = self.judge.triangle(a, b, c)?;
                !is_degenerate(a.at, b.at, c.at)
            }
            Event::Finalization { vertex, .. } => {
                self.judge.finalization(vertex)?;
                true
            }
        };
        Ok(sound.then_some(item))
    }
}

impl Filter for Clean {
    type In = Event;

    type Out = Event;

    type Rest = Option<Event>;

    ghost empty = { None };

    ghost rewrites = { clean_makes };

    ghost filters = { clean_filters };

    ghost waits = { λ f. refl };

    fn no_rest(&self) -> Option<Event> {
        None
    }

    fn give(&mut self, rest: &mut Option<Event>) -> Option<Event> {
        rest.take()
    }

    fn take(&mut self, item: Event) -> Result<Option<Event>, Fault> {
        or_fault(self.judged(item), LayerName::Clean, item)
    }

    fn stand(&self, below: Standing) -> Standing {
        self.judge.stand(LayerName::Clean, below)
    }
}
