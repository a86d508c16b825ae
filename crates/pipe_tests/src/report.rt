// Runs of a report: what they answer, count and leave in the stage.
use crate::common::{check_spelled, check_tells, closed_with, triangle, vertex_at};
use mesh_pipe::{ListStage, Report, StreamReport, TextReader};
use std::alloc::Global;
use std::process::Abort;
use std::test::Fail;

// A report that is spelled so takes nothing more, from any stage, and stays as it is.
fn check_takes_nothing(
    rt: &impl Abort,
    heap: Global,
    report: &mut Report,
    expected: &str,
) -> Result<(), Fail> {
    check_spelled(rt, report, expected)?;
    let mut stage = closed_with(rt, b"x 50")?;
    assert_eq!(rt; report.run(&mut stage, 5), 0);
    report.run_out(&mut stage);
    check_tells(rt, heap, &mut stage, "x 50 @1, ended")?;
    check_spelled(rt, report, expected)
}

// A square of two triangles, whose corners turn to the left. At most three of its vertices are live at once.
const SQUARE: &[u8] =
    b"v 0 0 0\nv 10 0 5\nv 10 10 0\nf 1 2 3\nx 2\nv 0 10 5\nf 1 3 4\nx 1\nx 3\nx 4\n";

// What a run may take, what it does take, and the report then. A run that takes all it may does not see the end.
const RUNS: [(u64, u64, &str); 4] = [
    (
        0,
        0,
        "vertices 0\ntriangles 0\nfinalized 0\nwidth 0\narea 0\nend open\n",
    ),
    (
        5,
        5,
        "vertices 3\ntriangles 1\nfinalized 1\nwidth 3\narea 100\nend open\n",
    ),
    (
        5,
        5,
        "vertices 4\ntriangles 2\nfinalized 4\nwidth 3\narea 200\nend open\n",
    ),
    (
        u64::MAX,
        0,
        "vertices 4\ntriangles 2\nfinalized 4\nwidth 3\narea 200\nend ok\n",
    ),
];

#[test]
fn runs_up_to_the_end(rt: HostRuntime) -> Result<(), Fail> {
    let mut reader = closed_with(&rt, SQUARE)?;
    let mut report = Report::new();
    for (n, taken, text) in RUNS {
        assert_eq!(rt; report.run(&mut reader, n), taken);
        check_spelled(&rt, &report, text)?;
    }
    let ended = "vertices 4\ntriangles 2\nfinalized 4\nwidth 3\narea 200\nend ok\n";
    check_takes_nothing(&rt, rt.alloc(), &mut report, ended)
}

// The event at fault is not counted, and it is gone from the stage.
#[test]
fn a_fault(rt: HostRuntime) -> Result<(), Fail> {
    let mut reader = closed_with(&rt, b"v 0 0 0\nx 2\nx 1\nx 3")?;
    let mut report = Report::new();
    assert_eq!(rt; report.run(&mut reader, 4), 1);
    let text = "vertices 1\ntriangles 0\nfinalized 0\nwidth 1\narea 0\nfault report 11 2\n";
    check_takes_nothing(&rt, rt.alloc(), &mut report, text)?;
    check_tells(&rt, rt.alloc(), &mut reader, "x 1 @3, x 3 @4, ended")
}

// A triangle with corners as far apart as they may be, half of a square of 200,000 by 200,000.
#[test]
fn the_largest_triangles(rt: HostRuntime) {
    let mut records = [
        vertex_at(1, -100_000, -100_000, 100_000),
        vertex_at(2, 100_000, -100_000, -100_000),
        vertex_at(3, 100_000, 100_000, 0),
        triangle(1, 2, 3),
    ];
    let cases = [
        (triangle(1, 2, 3), 40_000_000_000),
        (triangle(2, 3, 1), 40_000_000_000),
        (triangle(1, 3, 2), -40_000_000_000),
        (triangle(3, 2, 1), -40_000_000_000),
    ];
    for (triangle, area) in cases {
        records[3] = triangle;
        let mut report = Report::new();
        report.run_out(&mut ListStage::new(&records));
        assert_eq!(rt; report.totals().area, area);
    }
}

// One vertex too many, in a text that is pushed in one piece longer than the room; the lines behind the fault change nothing.
#[test]
fn a_long_text(rt: HostRuntime) -> Result<(), Fail> {
    let lines = [*b"v 0 0 0\n"; 1100];
    let mut report = StreamReport::new(TextReader::new());
    report.push(lines.as_flattened());
    report.push(b"x 1\n");
    let text = "vertices 1024\ntriangles 0\nfinalized 0\nwidth 1024\narea 0\nfault report 9 1025\n";
    check_spelled(&rt, &report.finish(), text)
}
