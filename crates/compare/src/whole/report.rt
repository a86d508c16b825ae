// The report, by the whole list of the events taken.
use crate::answer::{Answer, Counts, Ends};
use crate::case::UNWRITTEN;
use crate::memory::Made;
use crate::whole::acceptance::Events;
use crate::whole::layer::{determinant, difference, point};
use mesh_pipe::Event;
use std::alloc::Global;

const LEAST_BUFFER: usize = 256;

// How many events are of each kind: vertices, triangles and finalizations.
fn kinds(events: Events<'_>) -> [u32; 3] {
    let [mut vertices, mut triangles, mut finalized] = [0u32; 3];
    for given in events {
        let kind = match given.item {
            Event::Vertex { .. } => &mut vertices,
            Event::Triangle { .. } => &mut triangles,
            Event::Finalization { .. } => &mut finalized,
        };
        *kind = kind.wrapping_add(1);
    }
    [vertices, triangles, finalized]
}

fn width(events: Events<'_>) -> u32 {
    let [mut live, mut width] = [0u32; 2];
    for given in events {
        match given.item {
            Event::Vertex { .. } => live = live.wrapping_add(1),
            Event::Finalization { .. } => live = live.wrapping_sub(1),
            Event::Triangle { .. } => {}
        }
        width = width.max(live);
    }
    width
}

fn area(events: Events<'_>) -> i64 {
    let mut area = 0i64;
    for given in events {
        if let Event::Triangle { a, b, c, .. } = given.item {
            let [ux, uy, _] = difference(point(events, a), point(events, b));
            let [vx, vy, _] = difference(point(events, a), point(events, c));
            area = area.wrapping_add(determinant(ux, uy, vx, vy));
        }
    }
    area
}

// What a report that took these events keeps.
pub fn counts(events: Events<'_>) -> Counts {
    let [vertices, triangles, finalized] = kinds(events);
    Counts {
        vertices,
        triangles,
        finalized,
        width: width(events),
        area: area(events),
    }
}

// The lines of a report.
pub fn spelled(alloc: Global, counts: &Counts, ends: &Ends) -> Made<Vec<u8>> {
    let Counts {
        vertices,
        triangles,
        finalized,
        width,
        area,
    } = *counts;
    let mut text = format!(in alloc;
        "vertices {vertices}\ntriangles {triangles}\nfinalized {finalized}\nwidth {width}\narea {area}\n"
    )?;
    match *ends {
        Ends::Waiting => text.push_str("end open\n")?,
        Ends::Ended => text.push_str("end ok\n")?,
        Ends::Faulty {
            layer,
            cause,
            place,
        } => writeln!(text, "fault {layer} {cause} {place}")?,
    }
    Ok(text.into_bytes())
}

// What becomes of a buffer of this length into which a report is spelled.
pub fn written(alloc: Global, report: &[u8], length: usize) -> Made<Answer> {
    let mut buffer = vec![in alloc; UNWRITTEN; length]?;
    if length < LEAST_BUFFER {
        return Ok(Answer::Spelled {
            length: Err(16),
            buffer,
        });
    }
    for (byte, letter) in buffer.iter_mut().zip(report) {
        *byte = *letter;
    }
    Ok(Answer::Spelled {
        length: Ok(report.len()),
        buffer,
    })
}
