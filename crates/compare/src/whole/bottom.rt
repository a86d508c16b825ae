// What a bottom gives.
use crate::answer::Ends;
use crate::case::{Bottom, piece};
use crate::memory::Made;
use crate::whole::grid::grid;
use crate::whole::text::{Reading, read};
use mesh_pipe::Event;
use std::alloc::Global;

// The records in order, each with its position as its place.
pub fn listed(alloc: Global, records: &[Event]) -> Made<Vec<Event>> {
    let mut events = Vec::new(alloc);
    let mut place = 0u32;
    for record in records {
        place = place.saturating_add(1);
        events.push(record.placed_at(place))?;
    }
    Ok(events)
}

// A bottom that takes no text gives these records and ends.
fn untexted(alloc: Global, records: &[Event]) -> Made<Reading> {
    Ok(Reading {
        events: listed(alloc, records)?,
        lengths: Vec::new(alloc),
        settled: 0,
        ends: Ends::Ended,
    })
}

// What a bottom gives that took so many bytes of the text, unless its setting is not allowed.
pub fn given(
    alloc: Global,
    bottom: &Bottom,
    taken: usize,
    is_closed: bool,
) -> Made<Option<Reading>> {
    Ok(match bottom {
        Bottom::Text(text) => Some(read(alloc, piece(text.as_slice(), 0, taken), is_closed)?),
        Bottom::List(records) => Some(untexted(alloc, records.as_slice())?),
        Bottom::Grid {
            columns,
            rows,
            step,
        } => match grid(alloc, *columns, *rows, *step)? {
            Some(records) => Some(untexted(alloc, records.as_slice())?),
            None => None,
        },
    })
}
