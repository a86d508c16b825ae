// The border list, by the whole list.
use crate::answer::{Item, Side};
use crate::memory::Made;
use crate::whole::acceptance::{Events, cut, is_live, judge};
use crate::whole::given::{Given, Listed};
use mesh_pipe::Event;
use std::alloc::Global;

const MOST_OPEN: usize = 4096;

// The edges that an event uses.
fn sides(event: &Event) -> [Option<Side>; 3] {
    match *event {
        Event::Triangle { place, a, b, c } if a != b && b != c && c != a => {
            [(a, b), (b, c), (c, a)].map(|(from, to)| Some(Side { from, to, place }))
        }
        _ => [None; 3],
    }
}

fn is_same_edge(one: &Side, other: &Side) -> bool {
    (one.from == other.from && one.to == other.to) || (one.from == other.to && one.to == other.from)
}

fn other_end(side: &Side, end: u32) -> Option<u32> {
    if side.from == end {
        Some(side.to)
    } else {
        (side.to == end).then_some(side.from)
    }
}

// All uses of edges, in order.
fn uses(alloc: Global, events: Events<'_>) -> Made<Vec<Side>> {
    let mut all = Vec::new(alloc);
    for given in events {
        all.extend(sides(&given.item).into_iter().flatten())?;
    }
    Ok(all)
}

// Opens the edges that the event uses, or closes those at the vertex that it finalizes.
fn follow(open: &mut Vec<Side>, event: &Event) -> Made<()> {
    if let Event::Finalization { vertex, .. } = *event {
        open.retain(|side| other_end(side, vertex).is_none());
    }
    for side in sides(event).into_iter().flatten() {
        if !open.iter().any(|other| is_same_edge(&side, other)) {
            open.push(side)?;
        }
    }
    Ok(())
}

// How many events come before the first that leaves too many edges open, if there is one.
fn too_many(alloc: Global, events: Events<'_>) -> Made<Option<usize>> {
    let mut open = Vec::new(alloc);
    let mut count = 0usize;
    for given in events {
        follow(&mut open, &given.item)?;
        if open.len() > MOST_OPEN {
            return Ok(Some(count));
        }
        count = count.saturating_add(1);
    }
    Ok(None)
}

fn is_single(uses: &[Side], side: &Side) -> bool {
    uses.iter()
        .filter(|other| is_same_edge(side, other))
        .count()
        == 1
}

// What comes at the finalization of the vertex behind these events: the single open edges at it, by the other end.
fn at_finalization(
    alloc: Global,
    uses: &[Side],
    before: Events<'_>,
    vertex: u32,
) -> Made<Vec<Side>> {
    let mut sides = Vec::new(alloc);
    for side in uses {
        if let Some(other) = other_end(side, vertex) {
            if is_live(before, other) && is_single(uses, side) {
                sides.push(*side)?;
            }
        }
    }
    sides.sort_by_key(|side| other_end(side, vertex))?;
    Ok(sides)
}

fn all_sides(alloc: Global, events: Events<'_>) -> Made<Vec<Given<Item>>> {
    let uses = uses(alloc, events)?;
    let mut all = Vec::new(alloc);
    for (count, given) in events.iter().enumerate() {
        if let Event::Finalization { vertex, .. } = given.item {
            let before = events.get(..count).unwrap_or(&[]);
            for side in at_finalization(alloc, uses.as_slice(), before, vertex)? {
                all.push(Given {
                    item: Item::Side(side),
                    asked: given.asked,
                })?;
            }
        }
    }
    Ok(all)
}

// What the border list gives of what is given below it.
pub fn border(alloc: Global, below: Listed<Event>) -> Made<Listed<Item>> {
    let mut list = judge("border", below);
    if let Some(count) = too_many(alloc, list.items.as_slice())? {
        cut(&mut list, "border", count, 14);
    }
    Ok(Listed {
        items: all_sides(alloc, list.items.as_slice())?,
        ends: list.ends,
        asked: list.asked,
    })
}
