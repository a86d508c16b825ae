ghost use Rattle.std.specs.Prelude.{refl, ◌≡◌, ◌&&◌, None};
ghost use Rattle.mesh_windows.specs.Working.{clip_work};
ghost use Rattle.mesh_filters.specs.Handing.{events_of, Handed};
ghost use Rattle.mesh_filters.specs.Making.{clip_filters, clip_makes};

use crate::clip::Clip;
use mesh_judge::live::{Corners, Live};
use mesh_layer::fault::or_fault;
use mesh_layer::filter::Filter;
use mesh_regions::region::Region;
use mesh_stream::event::Event;
use mesh_stream::fault::{Cause, Fault, LayerName};
use mesh_stream::stage::Standing;

// Whether the three corners of a triangle are kept.
fn all_kept(corners: Corners<bool>) -> bool
    ensures { result ≡ (corners.a.note && corners.b.note && corners.c.note) }
{
    let Corners { a, b, c } = corners;
    a.note && b.note && c.note
}

impl<R: Region> Clip<R> {
    // Accepts an event and answers it if it is kept, or says why not.
    fn judged(&mut self, item: Event) -> Result<Option<Event>, Cause>
        ensures handed { Handed events_of (clip_work (R.Region.inside self.old.region)) self.old.judge 0 item result self.new.judge 0 }
        ensures region { self.new.region ≡ self.old.region }
    {
        let kept = match item {
            Event::Vertex { place, number, at } => {
                let note = self.region.contains(at);
                self.judge.vertex(number, Live { place, at, note })?;
                note
            }
            Event::Triangle { a, b, c, .. } => all_kept(self.judge.triangle(a, b, c)?),
            Event::Finalization { vertex, .. } => self.judge.finalization(vertex)?.note,
        };
        Ok(kept.then_some(item))
    }
}

impl<R: Region> Filter for Clip<R> {
    type In = Event;

    type Out = Event;

    type Rest = Option<Event>;

    ghost empty = { None };

    ghost rewrites = { clip_makes R.Region.inside };

    ghost filters = { clip_filters R.Region.inside };

    ghost waits = { λ f. refl };

    fn no_rest(&self) -> Option<Event> {
        None
    }

    fn give(&mut self, rest: &mut Option<Event>) -> Option<Event> {
        rest.take()
    }

    fn take(&mut self, item: Event) -> Result<Option<Event>, Fault> {
        or_fault(self.judged(item), LayerName::Clip, item)
    }

    fn stand(&self, below: Standing) -> Standing {
        self.judge.stand(LayerName::Clip, below)
    }
}
