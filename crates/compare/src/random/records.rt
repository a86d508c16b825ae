// Records for the list stage, which need not be numbered one by one, nor be in range.
use crate::memory::Made;
use crate::random::numbers::Random;
use mesh_pipe::{Event, Point};
use std::alloc::Global;

// The event with its numbers this many times as large, and any place.
fn stretched(event: Event, factor: u32, place: u32) -> Event {
    let stretch = |number: u32| number.wrapping_mul(factor);
    match event {
        Event::Vertex { number, at, .. } => Event::Vertex {
            place,
            number: stretch(number),
            at,
        },
        Event::Triangle { a, b, c, .. } => Event::Triangle {
            place,
            a: stretch(a),
            b: stretch(b),
            c: stretch(c),
        },
        Event::Finalization { vertex, .. } => Event::Finalization {
            place,
            vertex: stretch(vertex),
        },
    }
}

fn number(random: &mut Random) -> u32 {
    random.pick(&[0, 1, 2, 7, 99_999_999, 100_000_000, 100_000_001, u32::MAX])
}

fn coordinate(random: &mut Random) -> i32 {
    if random.one_in(6) {
        return random.pick(&[100_001, -100_001, i32::MIN, i32::MAX]);
    }
    random.pick(&[0, 100_000, -100_000])
}

// Any record at all.
fn any(random: &mut Random) -> Event {
    let place = random.below(9);
    match random.below(3) {
        0 => Event::Vertex {
            place,
            number: number(random),
            at: Point {
                x: coordinate(random),
                y: coordinate(random),
                z: coordinate(random),
            },
        },
        1 => Event::Triangle {
            place,
            a: number(random),
            b: number(random),
            c: number(random),
        },
        _ => Event::Finalization {
            place,
            vertex: number(random),
        },
    }
}

// Records with gaps between the numbers, at any places; one of many is any record at all.
pub fn records(alloc: Global, random: &mut Random, events: &[Event]) -> Made<Vec<Event>> {
    let factor = random.pick(&[1, 2, 97, 1_000_000, 25_000_000]);
    let is_sound = random.one_in(2);
    let mut records = Vec::new(alloc);
    for event in events {
        if !is_sound && random.one_in(60) {
            records.push(any(random))?;
        }
        records.push(stretched(*event, factor, random.below(3)))?;
    }
    Ok(records)
}
