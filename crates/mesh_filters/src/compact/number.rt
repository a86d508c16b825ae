ghost use Rattle.std.specs.Prelude.{◌≡◌, Some, None};
ghost use Rattle.mesh_judge.specs.Judging.{live_limit};
ghost use Rattle.mesh_filters.specs.Compacting.{memory_of, StillNoted, Marked};

use crate::compact::Compact;
use mesh_judge::live::Live;
use mesh_stream::event::Event;

// The new number of a corner, and the vertex that it brings, if it had none before.
#[derive(Drop)]
pub(super) struct Numbered {
    pub(super) number: u32,
    pub(super) brought: Option<Event>,
}

impl Compact {
    // Gives a vertex the next number.
    fn bring(&mut self, vertex: u32, kept: Live<Option<u32>>) -> Numbered
        requires live { (memory_of self.old).window.at vertex ≡ Some kept }
        requires unnumbered { kept.note ≡ None }
        ensures marked { Marked (memory_of self.old) vertex result (memory_of self.new) }
        ensures limit { live_limit self.new.judge ≡ live_limit self.old.judge }
    {
        let Live { place, at, .. } = kept;
        let number = self.given.saturating_add(1);
        self.judge.set_note(vertex, Some(number));
        self.given = number;
        Numbered {
            number,
            brought: Some(Event::Vertex { place, number, at }),
        }
    }

    // The new number of a corner, by what was noted of it before the triangle. Where that is none it is looked up again: it may be
    // the same vertex as an earlier corner, numbered a moment ago.
    pub(super) fn number(&mut self, corner: u32, note: Option<u32>) -> Numbered
        requires { StillNoted (memory_of self.old) corner note }
        ensures marked { Marked (memory_of self.old) corner result (memory_of self.new) }
        ensures limit { live_limit self.new.judge ≡ live_limit self.old.judge }
    {
        if let Some(number) = note {
            return Numbered {
                number,
                brought: None,
            };
        }
        let kept = self.judge.find(corner).unwrap();
        match kept.note {
            Some(number) => Numbered {
                number,
                brought: None,
            },
            None => self.bring(corner, kept),
        }
    }
}
