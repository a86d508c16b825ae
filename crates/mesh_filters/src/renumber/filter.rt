ghost use Rattle.std.specs.Prelude.{refl, None};
ghost use Rattle.mesh_windows.specs.Working.{renumber_work};
ghost use Rattle.mesh_filters.specs.Handing.{events_of, Handed};
ghost use Rattle.mesh_filters.specs.Making.{renumber_filters, renumber_makes};

use crate::renumber::Renumber;
use mesh_judge::live::{Corners, Live};
use mesh_layer::fault::or_fault;
use mesh_layer::filter::Filter;
use mesh_stream::event::Event;
use mesh_stream::fault::{Cause, Fault, LayerName};
use mesh_stream::stage::Standing;

impl Renumber {
    // Accepts an event and answers it with the new numbers, or says why not.
    fn judged(&mut self, item: Event) -> Result<Option<Event>, Cause>
        ensures { Handed events_of renumber_work self.old.judge self.old.given item result self.new.judge self.new.given }
    {
        let renumbered = match item {
            Event::Vertex { place, number, at } => {
                let note = self.given.saturating_add(1);
                self.judge.vertex(number, Live { place, at, note })?;
                self.given = note;
                Event::Vertex {
                    place,
                    number: note,
                    at,
                }
            }
            Event::Triangle { place, a, b, c } => {
                let Corners { a, b, c } = self.judge.triangle(a, b, c)?;
                Event::Triangle {
                    place,
                    a: a.note,
                    b: b.note,
                    c: c.note,
                }
            }
            Event::Finalization { place, vertex } => {
                let kept = self.judge.finalization(vertex)?;
                Event::Finalization {
                    place,
                    vertex: kept.note,
                }
            }
        };
        Ok(Some(renumbered))
    }
}

impl Filter for Renumber {
    type In = Event;

    type Out = Event;

    type Rest = Option<Event>;

    ghost empty = { None };

    ghost rewrites = { renumber_makes };

    ghost filters = { renumber_filters };

    ghost waits = { λ f. refl };

    fn no_rest(&self) -> Option<Event> {
        None
    }

    fn give(&mut self, rest: &mut Option<Event>) -> Option<Event> {
        rest.take()
    }

    fn take(&mut self, item: Event) -> Result<Option<Event>, Fault> {
        or_fault(self.judged(item), LayerName::Renumber, item)
    }

    fn stand(&self, below: Standing) -> Standing {
        self.judge.stand(LayerName::Renumber, below)
    }
}
