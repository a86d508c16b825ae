use mesh_stream::event::Event;
use mesh_stream::fault::Cause;

// The first word of a line, which says what kind of line it is.
#[derive(Clone, Copy)]
pub(crate) enum FirstWord {
    // there is none
    Missing,
    // starts with #
    Comment,
    Letter(char),
    Other,
}

// A line at the front of a text: what it holds, which need not be an event, and how many bytes it takes up.
#[derive(Clone, Copy)]
pub(crate) struct Line {
    pub content: Result<Option<Event>, Cause>,
    pub length: usize,
}
