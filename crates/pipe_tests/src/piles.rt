// Orders worked off on a pile, layers put on a pile at work, and faults that pass through many layers.
use crate::common::{check_tells, closed_with, open_with};
use mesh_pipe::{
    Cause, Event, HalfSpace, Inlet, LayerName, Order, Reply, Standing, TextReader, check, clean,
    clip, compact, renumber, work_off,
};
use std::process::Abort;
use std::test::Fail;

// A pile at work on four orders writes these replies into the log, which held others. Its room is so much then.
fn check_log(rt: &impl Abort, log: &mut [Reply<Event>], replies: &[Reply<Event>], room: usize) {
    let orders = [
        Order::Next,
        Order::Feed(b"x 1\nx 1"),
        Order::Next,
        Order::Close,
    ];
    let mut pile = check(TextReader::new());
    assert_eq!(rt; work_off(&mut pile, &orders, log), replies.len().min(4));
    assert_eq!(rt; &*log, replies);
    assert_eq!(rt; pile.room(), room);
}

// The last entry of a log longer than the orders stays as it is. With a shorter log the pile is not closed in the end.
#[test]
fn orders_and_logs(rt: HostRuntime) {
    let fault = Standing::faulty(LayerName::Check, Cause::NotLive, 1);
    let untouched = Reply::Fed(Ok(99));
    let replies = [
        Reply::Gave(Err(Standing::Waiting)),
        Reply::Fed(Ok(7)),
        Reply::Gave(Err(fault)),
        Reply::Closed(Ok(())),
        untouched,
    ];
    check_log(&rt, &mut [untouched; 5], &replies, 0);
    check_log(&rt, &mut [untouched; 3], &replies[0..3], 4093);
}

// The layer that is put on judges and numbers only what is still to come: vertex 1 was handed over before.
#[test]
fn a_layer_on_a_pile_at_work(rt: HostRuntime) -> Result<(), Fail> {
    let mut pile = check(open_with(&rt, b"v 0 0 0\n")?);
    check_tells(&rt, rt.alloc(), &mut pile, "v 1 0 0 0 @1, waiting")?;
    let mut pile = renumber(pile);
    pile.feed(b"v 5 5 5\nx 2\nx 1\n")?;
    let events = "v 1 5 5 5 @2, x 1 @3, fault renumber 11 4";
    check_tells(&rt, rt.alloc(), &mut pile, events)
}

// The reader names the first fault, and the lowest layer the others.
const FAULTS: [(&[u8], &str); 3] = [
    (b"v 0 0 0\nv 1 2\nx 3\n", "fault reader 4 2"),
    (b"v 0 0 0\nf 1 1 2\nx 4\n", "fault check 10 2"),
    (b"#\nv 0 0 0\nv 1 0 0\nx 1\n", "fault check 12 3"),
];

#[test]
fn faults_pass_through_five_layers(rt: HostRuntime) -> Result<(), Fail> {
    for (text, fault) in FAULTS {
        let everywhere = HalfSpace::new(0, 0, 0, 0)?;
        let cleaned = clean(check(closed_with(&rt, text)?));
        let mut pile = renumber(compact(clip(cleaned, everywhere)));
        check_tells(&rt, rt.alloc(), &mut pile, fault)?;
    }
    Ok(())
}
