// The acceptance rules, by check over a list.
use crate::common::{finalization, number_vertices, triangle, vertex, vertex_at};
use mesh_pipe::{Cause, Event, LayerName, ListStage, Report, Standing, check};
use std::process::Abort;

fn faulty(cause: Cause, place: u32) -> Standing {
    Standing::faulty(LayerName::Check, cause, place)
}

// Check stands so at the end of the list.
fn check_stands(rt: &impl Abort, records: &[Event], standing: Standing) {
    let mut report = Report::new();
    report.run_out(&mut check(ListStage::new(records)));
    assert_eq!(rt; report.standing(), standing);
}

// The first list has numbers as large and as small as may be.
#[test]
fn each_rule(rt: HostRuntime) {
    let corner = vertex_at(100_000_000, 100_000, -100_000, 0);
    let beyond = vertex_at(1, 0, -100_001, 0);
    let [four, seven] = [vertex(4), vertex(7)];
    let cases: [(&[Event], Standing); 7] = [
        (&[corner, finalization(100_000_000)], Standing::Ended),
        (&[vertex(0)], faulty(Cause::OutOfRange, 1)),
        (&[beyond], faulty(Cause::OutOfRange, 1)),
        (&[four, vertex(3)], faulty(Cause::NotRising, 2)),
        (&[four, triangle(4, 4, 7)], faulty(Cause::CornerNotLive, 2)),
        (&[four, finalization(7)], faulty(Cause::NotLive, 2)),
        (&[four, seven, finalization(4)], faulty(Cause::LeftLive, 2)),
    ];
    for (records, standing) in cases {
        check_stands(&rt, records, standing);
    }
}

// The vertices 1 to 1,024 are live, and behind them come this event and two vertices more.
fn check_crowd(rt: &impl Abort, next: Event, cause: Cause, place: u32) {
    let mut records = [next; 1027];
    number_vertices(&mut records[0..1024]);
    records[1025] = vertex(1025);
    records[1026] = vertex(1026);
    check_stands(rt, &records, faulty(cause, place));
}

// The first vertices fail all that is judged behind their cause, too. There is room for another once one is finalized.
#[test]
fn the_limit_of_live_vertices(rt: HostRuntime) {
    let beyond = vertex_at(7, 100_001, 0, 0);
    check_crowd(&rt, beyond, Cause::OutOfRange, 1025);
    check_crowd(&rt, vertex(7), Cause::NotRising, 1025);
    check_crowd(&rt, vertex(1025), Cause::TooManyLive, 1025);
    check_crowd(&rt, finalization(500), Cause::TooManyLive, 1027);
}
