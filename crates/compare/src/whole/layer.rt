// The five layers, each by its rule over the whole list.
use crate::case::Rule;
use crate::memory::Made;
use crate::whole::acceptance::{Events, judge};
use crate::whole::given::{Given, Listed};
use crate::whole::region::is_inside;
use mesh_pipe::{Event, Point};
use std::alloc::Global;

fn name(rule: Rule) -> &'static str {
    match rule {
        Rule::Check => "check",
        Rule::Clean => "clean",
        Rule::Clip(_) => "clip",
        Rule::Compact => "compact",
        Rule::Renumber => "renumber",
    }
}

// Where a vertex of the list lies.
pub fn point(events: Events<'_>, sought: u32) -> Point {
    for given in events {
        match given.item {
            Event::Vertex { number, at, .. } if number == sought => return at,
            _ => {}
        }
    }
    Point { x: 0, y: 0, z: 0 }
}

// From one point to another.
pub fn difference(from: Point, to: Point) -> [i64; 3] {
    [
        i64::from(to.x).wrapping_sub(i64::from(from.x)),
        i64::from(to.y).wrapping_sub(i64::from(from.y)),
        i64::from(to.z).wrapping_sub(i64::from(from.z)),
    ]
}

// a·d − b·c
pub fn determinant(a: i64, b: i64, c: i64, d: i64) -> i64 {
    a.wrapping_mul(d).wrapping_sub(b.wrapping_mul(c))
}

fn is_degenerate(a: Point, b: Point, c: Point) -> bool {
    let [ux, uy, uz] = difference(a, b);
    let [vx, vy, vz] = difference(a, c);
    determinant(uy, uz, vy, vz) == 0
        && determinant(uz, ux, vz, vx) == 0
        && determinant(ux, uy, vx, vy) == 0
}

// Whether the layer leaves the event in the list.
fn stays(rule: Rule, events: Events<'_>, event: &Event) -> bool {
    match (rule, *event) {
        (Rule::Clean, Event::Triangle { a, b, c, .. }) => {
            !is_degenerate(point(events, a), point(events, b), point(events, c))
        }
        (Rule::Clip(region), Event::Vertex { at, .. }) => is_inside(region, at),
        (Rule::Clip(region), Event::Triangle { a, b, c, .. }) => {
            [a, b, c]
                .iter()
                .all(|corner| is_inside(region, point(events, *corner)))
        }
        (Rule::Clip(region), Event::Finalization { vertex, .. }) => is_inside(
            region,
            point(events, vertex),
        ),
        _ => true,
    }
}

fn filtered(alloc: Global, rule: Rule, events: Events<'_>) -> Made<Vec<Given<Event>>> {
    events
        .iter()
        .copied()
        .filter(|given| stays(rule, events, &given.item))
        .collect(alloc)
}

// The new number of a vertex: its position in the new order, from 1.
fn new_number(order: &[u32], sought: u32) -> Option<u32> {
    let position = order.iter().position(|number| *number == sought)?;
    u32::try_from(position.saturating_add(1)).ok()
}

// The event with new numbers, unless it names a vertex that has none.
fn renumbered(order: &[u32], event: Event) -> Option<Event> {
    Some(match event {
        Event::Vertex { place, number, at } => Event::Vertex {
            place,
            number: new_number(order, number)?,
            at,
        },
        Event::Triangle { place, a, b, c } => Event::Triangle {
            place,
            a: new_number(order, a)?,
            b: new_number(order, b)?,
            c: new_number(order, c)?,
        },
        Event::Finalization { place, vertex } => Event::Finalization {
            place,
            vertex: new_number(order, vertex)?,
        },
    })
}

// The vertices in the order in which they come.
fn coming_order(alloc: Global, events: Events<'_>) -> Made<Vec<u32>> {
    let mut order = Vec::new(alloc);
    for given in events {
        if let Event::Vertex { number, .. } = given.item {
            order.push(number)?;
        }
    }
    Ok(order)
}

// The vertices in the order in which triangles name them first.
fn naming_order(alloc: Global, events: Events<'_>) -> Made<Vec<u32>> {
    let mut order = Vec::new(alloc);
    for given in events {
        if let Event::Triangle { a, b, c, .. } = given.item {
            for corner in [a, b, c] {
                if !order.contains(&corner) {
                    order.push(corner)?;
                }
            }
        }
    }
    Ok(order)
}

// The vertex that was introduced with this number, given when that much is asked for.
fn moved(events: Events<'_>, sought: u32, asked: usize) -> Option<Given<Event>> {
    for given in events {
        match given.item {
            Event::Vertex { number, .. } if number == sought => {
                return Some(Given {
                    item: given.item,
                    asked,
                });
            }
            _ => {}
        }
    }
    None
}

// Each vertex directly before the first triangle that names it; those that none names are left out.
fn reordered(alloc: Global, events: Events<'_>, order: &[u32]) -> Made<Vec<Given<Event>>> {
    let mut all = Vec::new(alloc);
    let mut brought = 0usize;
    for given in events {
        if let Event::Triangle { a, b, c, .. } = given.item {
            // the next ones in the new order, as far as this triangle names them
            for _ in 0..3 {
                match order.get(brought) {
                    Some(next) if [a, b, c].contains(next) => {
                        all.extend(moved(events, *next, given.asked))?;
                        brought = brought.saturating_add(1);
                    }
                    _ => {}
                }
            }
        }
        if !matches!(given.item, Event::Vertex { .. }) {
            all.push(*given)?;
        }
    }
    Ok(all)
}

// The events with their vertices numbered in this order; what names another vertex is left out.
fn numbered(alloc: Global, events: Events<'_>, order: &[u32]) -> Made<Vec<Given<Event>>> {
    let mut all = Vec::new(alloc);
    for given in events {
        if let Some(item) = renumbered(order, given.item) {
            all.push(Given {
                item,
                asked: given.asked,
            })?;
        }
    }
    Ok(all)
}

fn rewritten(alloc: Global, rule: Rule, events: Events<'_>) -> Made<Vec<Given<Event>>> {
    match rule {
        Rule::Check | Rule::Clean | Rule::Clip(_) => filtered(alloc, rule, events),
        Rule::Compact => {
            let order = naming_order(alloc, events)?;
            let moved = reordered(alloc, events, order.as_slice())?;
            numbered(alloc, moved.as_slice(), order.as_slice())
        }
        Rule::Renumber => {
            let order = coming_order(alloc, events)?;
            numbered(alloc, events, order.as_slice())
        }
    }
}

// What a layer makes of what is given below it.
pub fn layer(alloc: Global, rule: Rule, below: Listed<Event>) -> Made<Listed<Event>> {
    let Listed { items, ends, asked } = judge(name(rule), below);
    Ok(Listed {
        items: rewritten(alloc, rule, items.as_slice())?,
        ends,
        asked,
    })
}
