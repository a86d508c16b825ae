// What both implementations answer, in words that belong to neither, so that the answers can be laid side by side.

// An edge that a border list hands over.
use mesh_pipe::Event;

#[derive(Clone, Copy, PartialEq, Eq, Debug)]
pub struct Side {
    pub from: u32,
    pub to: u32,
    pub place: u32,
}

#[derive(Clone, Copy, PartialEq, Eq, Debug)]
pub enum Item {
    Event(Event),
    Side(Side),
}

// How it goes on where there is no item.
#[derive(Clone, Copy, PartialEq, Eq, Debug)]
pub enum Ends {
    Waiting,
    Ended,
    Faulty {
        layer: &'static str,
        cause: u8,
        place: u32,
    },
}

// What a report counts.
#[derive(Clone, Copy, PartialEq, Eq, Debug, Default)]
pub struct Counts {
    pub vertices: u32,
    pub triangles: u32,
    pub finalized: u32,
    pub width: u32,
    pub area: i64,
}

// One answer to a call, or what is seen after it.
#[derive(PartialEq, Eq, Debug, Drop)]
pub enum Answer {
    Item(Item),
    None(Ends),
    Taken(usize),
    Closed,
    Refused(u8),
    Room(usize),
    // of a bounded run: how many events it took
    Ran(u64),
    Report(Counts, Ends),
    Spelled {
        length: Result<usize, u8>,
        buffer: Vec<u8>,
    },
}
