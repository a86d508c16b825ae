// Random cases.
use crate::case::{Bottom, Call, Case, Region, Rule, Top};
use crate::memory::Made;
use crate::random::calls::{calls, calls_without_text};
use crate::random::damage::damaged;
use crate::random::limits::{crowd, net};
use crate::random::mesh::any_mesh;
use crate::random::numbers::Random;
use crate::random::records::records;
use crate::random::text::text;
use mesh_pipe::{Event, Point};
use std::alloc::Global;

fn half_space(random: &mut Random) -> Region {
    let factors = [0; 3].map(|_| random.pick(&[0, 1, -1, 2, -3, 1000, -1000]));
    let [a, b, c] = factors;
    let d = random.pick(&[0, 10, 15, 30, -10, 20_000, 300_000_000, -300_000_000]);
    match random.below(40) {
        0 => Region::HalfSpace { a: 1001, b, c, d },
        1 => Region::HalfSpace { a, b: -1001, c, d },
        2 => Region::HalfSpace {
            a,
            b,
            c: i32::MIN,
            d,
        },
        3 => Region::HalfSpace {
            a,
            b,
            c,
            d: random.pick(&[300_000_001, -300_000_001, i32::MIN]),
        },
        _ => Region::HalfSpace { a, b, c, d },
    }
}

// A range of coordinates, now and then one that is not allowed.
fn range(random: &mut Random) -> (i32, i32) {
    if random.one_in(60) {
        return random.pick(&[(1, 0), (0, 100_001), (-100_001, 0), (i32::MIN, i32::MAX)]);
    }
    random.pick(&[
        (0, 0),
        (0, 10),
        (0, 30),
        (10, 20),
        (-100_000, 100_000),
        (0, 100_000),
        (-7, 20),
    ])
}

fn region(random: &mut Random) -> Region {
    if random.one_in(2) {
        return half_space(random);
    }
    let (low_x, high_x) = range(random);
    let (low_y, high_y) = range(random);
    let (low_z, high_z) = range(random);
    Region::Box {
        low: Point {
            x: low_x,
            y: low_y,
            z: low_z,
        },
        high: Point {
            x: high_x,
            y: high_y,
            z: high_z,
        },
    }
}

fn rule(random: &mut Random) -> Rule {
    match random.below(6) {
        0 => Rule::Check,
        1 => Rule::Clean,
        2 => Rule::Clip(region(random)),
        3..=4 => Rule::Compact,
        _ => Rule::Renumber,
    }
}

// Up to two layers, or five in one of three orders.
fn rules(alloc: Global, random: &mut Random) -> Made<Vec<Rule>> {
    let clip = Rule::Clip(region(random));
    let mut rules = Vec::new(alloc);
    match random.below(16) {
        0 => rules.extend_from_slice(&[
            Rule::Check,
            Rule::Clean,
            clip,
            Rule::Compact,
            Rule::Renumber,
        ])?,
        1 => rules.extend_from_slice(&[
            Rule::Compact,
            Rule::Check,
            clip,
            Rule::Compact,
            Rule::Renumber,
        ])?,
        2 => rules.extend_from_slice(&[
            Rule::Renumber,
            Rule::Compact,
            clip,
            Rule::Clean,
            Rule::Check,
        ])?,
        _ => {
            for _ in 0..random.pick(&[0, 1, 1, 2, 2, 2]) {
                rules.push(rule(random))?;
            }
        }
    }
    Ok(rules)
}

// The events of a case: now and then about as many as there may be.
fn events(alloc: Global, random: &mut Random, top: Top) -> Made<Vec<Event>> {
    match (random.below(200), top) {
        (0, _) => crowd(alloc, random),
        (1..=16, Top::Border) => net(alloc, random),
        _ => {
            let steps = random.pick(&[0, 1, 3, 10, 30, 30, 60]);
            any_mesh(alloc, random, steps)
        }
    }
}

fn grid(random: &mut Random) -> Bottom {
    let columns = random.pick(&[2, 2, 3, 4, 5, 9]);
    let rows = random.pick(&[2, 2, 3, 4, 5, 7]);
    let step = random.pick(&[1, 1, 10, 33, 12_500]);
    match random.below(16) {
        0 => Bottom::Grid {
            columns: random.pick(&[0, 1, 1001, u32::MAX]),
            rows,
            step,
        },
        1 => Bottom::Grid {
            columns,
            rows: random.pick(&[0, 1, 50_001, u32::MAX]),
            step,
        },
        2 => Bottom::Grid {
            columns,
            rows,
            step: random.pick(&[0, 100_001, u32::MAX]),
        },
        3 => Bottom::Grid {
            columns: 3,
            rows: 2,
            step: random.pick(&[50_000, 50_001]),
        },
        4 => Bottom::Grid {
            columns: 2,
            rows: 3,
            step: random.pick(&[50_000, 50_001]),
        },
        5 => Bottom::Grid {
            columns: 40,
            rows: 4,
            step,
        },
        _ => Bottom::Grid {
            columns,
            rows,
            step,
        },
    }
}

fn text_case(alloc: Global, random: &mut Random, top: Top) -> Made<(Bottom, Vec<Call>)> {
    let events = events(alloc, random, top)?;
    let mut text = text(alloc, random, events.as_slice())?;
    if random.one_in(2) {
        text = damaged(alloc, random, text)?;
    }
    let calls = calls(alloc, random, top, text.len())?;
    Ok((Bottom::Text(text), calls))
}

fn list_case(alloc: Global, random: &mut Random, top: Top) -> Made<(Bottom, Vec<Call>)> {
    let events = events(alloc, random, top)?;
    let records = records(alloc, random, events.as_slice())?;
    Ok((
        Bottom::List(records),
        calls_without_text(alloc, random, top)?,
    ))
}

// The report program's pile, over a stream of text.
fn stream_case(alloc: Global, random: &mut Random) -> Made<Case> {
    let (bottom, calls) = text_case(alloc, random, Top::Stream)?;
    Ok(Case {
        bottom,
        rules: vec![in alloc; Rule::Check, Rule::Clean, Rule::Compact]?,
        top: Top::Stream,
        calls,
    })
}

pub fn case(alloc: Global, random: &mut Random) -> Made<Case> {
    if random.one_in(12) {
        return stream_case(alloc, random);
    }
    let top = random.pick(&[Top::Events, Top::Events, Top::Border, Top::Report]);
    let (bottom, calls) = match random.below(10) {
        0..=1 => list_case(alloc, random, top)?,
        2 => (grid(random), calls_without_text(alloc, random, top)?),
        _ => text_case(alloc, random, top)?,
    };
    Ok(Case {
        bottom,
        rules: rules(alloc, random)?,
        top,
        calls,
    })
}
