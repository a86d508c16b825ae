// What both implementations are asked: a bottom, layers on it, what stands on top, and calls.

use mesh_pipe::{Event, Point};

#[derive(Debug, Drop)]
pub enum Bottom {
    Text(Vec<u8>),
    List(Vec<Event>),
    Grid { columns: u32, rows: u32, step: u32 },
}

// The setting of a region.
#[derive(Clone, Copy, Debug)]
pub enum Region {
    Box { low: Point, high: Point },
    HalfSpace { a: i32, b: i32, c: i32, d: i32 },
}

#[derive(Clone, Copy, Debug)]
pub enum Rule {
    Check,
    Clean,
    Clip(Region),
    Compact,
    Renumber,
}

#[derive(Clone, Copy, Debug)]
pub enum Top {
    Events,
    Border,
    Report,
    // the report on a stream of text
    Stream,
}

#[derive(Clone, Copy, Debug)]
pub enum Call {
    // the next so many bytes of the text, or what is left of it
    Feed(usize),
    Close,
    Next,
    // next until it gives none
    Drain,
    // a run of the report of at most so many events
    Run(u64),
    // the report is spelled into a buffer of so many bytes
    Spell(usize),
}

#[derive(Debug, Drop)]
pub struct Case {
    pub bottom: Bottom,
    // from the lowest up
    pub rules: Vec<Rule>,
    pub top: Top,
    pub calls: Vec<Call>,
}

// No loop asks more often.
pub const MOST_ASKED: usize = 100_000;

// The next so many bytes of the text behind those taken, or what is left of it.
pub fn piece(text: &[u8], taken: usize, length: usize) -> &[u8] {
    let rest = text.get(taken..).unwrap_or(&[]);
    rest.get(..length).unwrap_or(rest)
}

// What a buffer holds before a report is spelled into it.
pub const UNWRITTEN: u8 = 170;
