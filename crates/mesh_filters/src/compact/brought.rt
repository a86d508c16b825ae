ghost use Rattle.std.specs.Prelude.{◌≡◌};
ghost use Rattle.mesh_filters.specs.Compacting.{only, Popped};

use mesh_stream::event::Event;

// What is to be handed over for one event: the vertices that a triangle brings, in the order of its corners, and the event itself.
#[derive(Drop)]
pub struct Brought {
    pub(super) first: Option<Event>,
    pub(super) second: Option<Event>,
    pub(super) third: Option<Event>,
    pub(super) last: Option<Event>,
}

impl Brought {
    // Nothing but this event, if there is one.
    pub(super) fn only(last: Option<Event>) -> Brought
        ensures { result ≡ only last }
    {
        Brought {
            first: None,
            second: None,
            third: None,
            last,
        }
    }

    // Takes out what comes first, if anything is left.
    pub(super) fn pop(&mut self) -> Option<Event>
        ensures { Popped self.old result self.new }
    {
        if let Some(event) = self.first.take() {
            return Some(event);
        }
        if let Some(event) = self.second.take() {
            return Some(event);
        }
        if let Some(event) = self.third.take() {
            return Some(event);
        }
        self.last.take()
    }
}
