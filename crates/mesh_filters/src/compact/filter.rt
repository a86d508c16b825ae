ghost use Rattle.std.specs.Prelude.{refl};
ghost use Rattle.mesh_stream.specs.declared.event.Event.TheVariants.{Vertex, Triangle, Finalization};
ghost use Rattle.mesh_windows.specs.Working.{compact_work};
ghost use Rattle.mesh_filters.specs.Handing.{Handed};
ghost use Rattle.mesh_filters.specs.Making.{compact_filters, compact_makes};
ghost use Rattle.mesh_filters.specs.Compacting.{nothing, listed};

use crate::compact::Compact;
use crate::compact::brought::Brought;
use mesh_judge::live::Live;
use mesh_layer::fault::or_fault;
use mesh_layer::filter::Filter;
use mesh_stream::event::{Event, Point};
use mesh_stream::fault::{Cause, Fault, LayerName};
use mesh_stream::stage::Standing;

impl Compact {
    // Accepts a vertex, which has no new number yet, or says why not.
    fn vertex(&mut self, place: u32, number: u32, at: Point) -> Result<Brought, Cause>
        ensures { Handed listed compact_work self.old.judge self.old.given (Vertex place number at) result self.new.judge self.new.given }
    {
        let note = None;
        self.judge.vertex(number, Live { place, at, note })?;
        Ok(Brought::only(None))
    }

    // Accepts a triangle and answers it with the new numbers of its corners, and the vertices that it brings, or says why not. Mostly
    // all corners are noted with a number, and none is looked up again.
    fn triangle(&mut self, place: u32, a: u32, b: u32, c: u32) -> Result<Brought, Cause>
        ensures { Handed listed compact_work self.old.judge self.old.given (Triangle place a b c) result self.new.judge self.new.given }
    {
        let corners = self.judge.triangle(a, b, c)?;
        let first = self.number(a, corners.a.note);
        let second = self.number(b, corners.b.note);
        let third = self.number(c, corners.c.note);
        Ok(Brought {
            first: first.brought,
            second: second.brought,
            third: third.brought,
            last: Some(Event::Triangle {
                place,
                a: first.number,
                b: second.number,
                c: third.number,
            }),
        })
    }

    // Accepts a finalization and answers it, if the vertex has a new number, or says why not.
    fn finalization(&mut self, place: u32, vertex: u32) -> Result<Brought, Cause>
        ensures { Handed listed compact_work self.old.judge self.old.given (Finalization place vertex) result self.new.judge self.new.given }
    {
        let kept = self.judge.finalization(vertex)?;
        let event = kept
            .note
            .map(|vertex| Event::Finalization { place, vertex });
        Ok(Brought::only(event))
    }

    // Accepts an event and answers what is to be handed over for it, or says why not.
    fn judged(&mut self, item: Event) -> Result<Brought, Cause>
        ensures { Handed listed compact_work self.old.judge self.old.given item result self.new.judge self.new.given }
    {
        match item {
            Event::Vertex { place, number, at } => self.vertex(place, number, at),
            Event::Triangle { place, a, b, c } => self.triangle(place, a, b, c),
            Event::Finalization { place, vertex } => self.finalization(place, vertex),
        }
    }
}

impl Filter for Compact {
    type In = Event;

    type Out = Event;

    type Rest = Brought;

    ghost empty = { nothing };

    ghost rewrites = { compact_makes };

    ghost filters = { compact_filters };

    ghost waits = { λ f. refl };

    fn no_rest(&self) -> Brought {
        Brought::only(None)
    }

    fn give(&mut self, rest: &mut Brought) -> Option<Event> {
        rest.pop()
    }

    fn take(&mut self, item: Event) -> Result<Brought, Fault> {
        or_fault(self.judged(item), LayerName::Compact, item)
    }

    fn stand(&self, below: Standing) -> Standing {
        self.judge.stand(LayerName::Compact, below)
    }
}
