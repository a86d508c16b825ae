// Which events are accepted, by all that came before.
use crate::answer::Ends;
use crate::whole::given::{Given, Listed};
use crate::whole::text::{LARGEST_COORDINATE, LARGEST_NUMBER};
use mesh_pipe::{Event, Point};

const MOST_LIVE: usize = 1024;

pub type Events<'a> = &'a [Given<Event>];

// The last event that introduced or finalized a vertex says whether it is live.
pub fn is_live(before: Events<'_>, sought: u32) -> bool {
    for given in before.iter().rev() {
        match given.item {
            Event::Vertex { number, .. } if number == sought => return true,
            Event::Finalization { vertex, .. } if vertex == sought => return false,
            _ => {}
        }
    }
    false
}

// How many vertices are live after accepted events.
fn live_count(before: Events<'_>) -> usize {
    let introduced = before
        .iter()
        .filter(|given| matches!(given.item, Event::Vertex { .. }))
        .count();
    let finalized = before
        .iter()
        .filter(|given| matches!(given.item, Event::Finalization { .. }))
        .count();
    introduced.saturating_sub(finalized)
}

fn highest(before: Events<'_>) -> u32 {
    let mut highest = 0;
    for given in before {
        if let Event::Vertex { number, .. } = given.item {
            highest = number.max(highest);
        }
    }
    highest
}

fn is_in_range(at: Point) -> bool {
    [at.x, at.y, at.z].iter().all(|coordinate| coordinate.unsigned_abs() <= LARGEST_COORDINATE)
}

// Why an event is not accepted after others, if it is not. No list here has so many triangles that it is for their number.
fn cause(before: Events<'_>, event: &Event) -> Option<u8> {
    match *event {
        Event::Vertex { number, at, .. } => {
            if !is_in_range(at) || number == 0 || number > LARGEST_NUMBER {
                Some(6)
            } else if number <= highest(before) {
                Some(8)
            } else {
                (live_count(before) >= MOST_LIVE).then_some(9)
            }
        }
        Event::Triangle { a, b, c, .. } => {
            let all_live = is_live(before, a) && is_live(before, b) && is_live(before, c);
            (!all_live).then_some(10)
        }
        Event::Finalization { vertex, .. } => (!is_live(before, vertex)).then_some(11),
    }
}

// How many events are accepted, and why the next one is not, if there is one.
fn accepted(events: Events<'_>) -> (usize, Option<u8>) {
    for (count, given) in events.iter().enumerate() {
        let before = events.get(..count).unwrap_or(&[]);
        if let Some(cause) = cause(before, &given.item) {
            return (count, Some(cause));
        }
    }
    (events.len(), None)
}

// The place of the lowest-numbered vertex that is still live: numbers rise, so it is the first.
fn lowest_live(events: Events<'_>) -> Option<u32> {
    events
        .iter()
        .filter(
            |given| matches!(given.item, Event::Vertex { number, .. } if is_live(events, number)),
        )
        .map(|given| given.item.place())
        .next()
}

// Cuts a list behind so many items, for an event at fault that stands there.
pub fn cut(list: &mut Listed<Event>, layer: &'static str, count: usize, cause: u8) {
    if let Some(given) = list.items.get(count) {
        list.ends = Ends::Faulty {
            layer,
            cause,
            place: given.item.place(),
        };
        list.asked = given.asked;
    }
    list.items.truncate(count);
}

// What a layer works on: the accepted beginning, and how it stands behind it.
pub fn judge(layer: &'static str, mut list: Listed<Event>) -> Listed<Event> {
    let (count, cause) = accepted(list.items.as_slice());
    match cause {
        Some(cause) => cut(&mut list, layer, count, cause),
        None if list.ends == Ends::Ended => {
            if let Some(place) = lowest_live(list.items.as_slice()) {
                list.ends = Ends::Faulty {
                    layer,
                    cause: 12,
                    place,
                };
            }
        }
        None => {}
    }
    list
}
