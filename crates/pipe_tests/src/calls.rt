// The calls of a reader, one after the other: room, closing and faults.
use crate::common::finalization;
use mesh_pipe::{
    Cause, Event, Inlet, LayerName, Order, Refusal, Reply, Standing, TextReader, work_off,
};
use std::process::Abort;

const WAITS: Reply<Event> = Reply::Gave(Err(Standing::Waiting));

const ENDED: Reply<Event> = Reply::Gave(Err(Standing::Ended));

const NOT_FED: Reply<Event> = Reply::Fed(Err(Refusal::InletClosed));

const NOT_CLOSED: Reply<Event> = Reply::Closed(Err(Refusal::InletClosed));

// A call, what the reader answers, and its room behind it.
type Step<'a> = (Order<'a>, Reply<Event>, usize);

fn check_steps(rt: &impl Abort, steps: &[Step<'_>]) {
    let mut reader = TextReader::new();
    for (order, reply, room) in steps {
        let mut log = [WAITS];
        work_off(&mut reader, &[*order], &mut log);
        assert_eq!(rt; log[0], *reply, "{order:?}");
        assert_eq!(rt; reader.room(), *room, "{order:?}");
    }
}

fn gives_finalization(place: u32, vertex: u32) -> Reply<Event> {
    Reply::Gave(Ok(finalization(vertex).placed_at(place)))
}

// Only what the reader still needs of the text takes room.
#[test]
fn the_room(rt: HostRuntime) {
    let steps = [
        (Order::Feed(b"x 1\n\nx 2"), Reply::Fed(Ok(8)), 4088),
        (Order::Next, gives_finalization(1, 1), 4092),
        (Order::Next, WAITS, 4093),
        (Order::Feed(b"4\n"), Reply::Fed(Ok(2)), 4091),
        (Order::Next, gives_finalization(3, 24), 4096),
        (Order::Feed(&[b'\n'; 5000]), Reply::Fed(Ok(4096)), 0),
        (Order::Feed(b"x"), Reply::Fed(Ok(0)), 0),
        (Order::Next, WAITS, 4096),
        (Order::Feed(b"x 1\n"), Reply::Fed(Ok(4)), 4092),
        (Order::Next, gives_finalization(4100, 1), 4096),
    ];
    check_steps(&rt, &steps);
}

// A closed reader takes no text, but still gives what it has. A second close is refused, too.
#[test]
fn closed(rt: HostRuntime) {
    let steps = [
        (Order::Feed(b"x 1\nx 2"), Reply::Fed(Ok(7)), 4089),
        (Order::Close, Reply::Closed(Ok(())), 0),
        (Order::Feed(b"x 3\n"), NOT_FED, 0),
        (Order::Next, gives_finalization(1, 1), 0),
        (Order::Close, NOT_CLOSED, 0),
        (Order::Next, gives_finalization(2, 2), 0),
        (Order::Next, ENDED, 0),
        (Order::Feed(b"x 3\n"), NOT_FED, 0),
        (Order::Next, ENDED, 0),
    ];
    check_steps(&rt, &steps);
}

// A reader at fault keeps its faulty line and takes text that can change nothing. It closes as ever.
#[test]
fn at_fault(rt: HostRuntime) {
    let fault = Reply::Gave(Err(Standing::faulty(LayerName::Reader, Cause::OutOfRange, 2)));
    let steps = [
        (Order::Feed(b"#\nx 0\nx 2\n"), Reply::Fed(Ok(10)), 4086),
        (Order::Next, fault, 4088),
        (Order::Feed(b"x 3\n"), Reply::Fed(Ok(4)), 4084),
        (Order::Next, fault, 4084),
        (Order::Close, Reply::Closed(Ok(())), 0),
        (Order::Next, fault, 0),
        (Order::Feed(b"x 3\n"), NOT_FED, 0),
        (Order::Next, fault, 0),
    ];
    check_steps(&rt, &steps);
}
