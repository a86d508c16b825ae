// The small meshes that the crate small_meshes speaks of. Its long lines are among those of reading.rt.
use crate::common::{
    check_closing, check_spelled, check_tells, finalization, open_with, vertex_at,
};
use mesh_pipe::{
    AlignedBox, Grid, Point, Standing, border_list, check, clip, renumber, text_report,
};
use small_meshes::pieces::{asked_at_the_end, asked_between};
use std::test::Fail;

// The grid of two columns and two rows, its border, and its upper row, whose vertices are then the first.
#[test]
fn the_grid(rt: HostRuntime) -> Result<(), Fail> {
    let heap = rt.alloc();
    let events =
        "v 1 0 0 0 @1, v 2 10 0 0 @2, v 3 0 10 0 @3, v 4 10 10 0 @4, f 1 2 4 @5, f 1 4 3 @6, \
        x 1 @7, x 2 @8, x 3 @9, x 4 @10, ended";
    check_tells(&rt, heap, &mut Grid::new(2, 2, 10)?, events)?;
    let mut border = border_list(Grid::new(2, 2, 10)?);
    let sides = "e 1 2 @5, e 3 1 @6, e 2 4 @5, e 4 3 @6, ended";
    check_tells(&rt, heap, &mut border, sides)?;
    let low = Point { x: 0, y: 5, z: 0 };
    let high = Point { x: 10, y: 10, z: 0 };
    let mut pile = renumber(clip(Grid::new(2, 2, 10)?, AlignedBox::new(low, high)?));
    let row = "v 1 0 10 0 @3, v 2 10 10 0 @4, x 1 @9, x 2 @10, ended";
    check_tells(&rt, heap, &mut pile, row)
}

// A text, what check tells of it while it is open, and what more once it is closed.
const CHECKED: [(&[u8], &str, &str); 3] = [
    (b"", "waiting", "ended"),
    (b"v 1 2 3", "waiting", "v 1 1 2 3 @1, fault check 12 1"),
    (
        b"v 0 0 0\nx 1\nf 1 1 1\n",
        "v 1 0 0 0 @1, x 1 @2, fault check 10 3",
        "fault check 10 3",
    ),
];

#[test]
fn checked_texts(rt: HostRuntime) -> Result<(), Fail> {
    for (text, open, closed) in CHECKED {
        let mut pile = check(open_with(&rt, text)?);
        check_closing(&rt, rt.alloc(), &mut pile, open, closed)?;
    }
    Ok(())
}

#[test]
fn three_pieces(rt: HostRuntime) -> Result<(), Fail> {
    let vertex = vertex_at(1, 1, 2, 3).placed_at(1);
    let finalization = finalization(1).placed_at(2);
    let waits = Err(Standing::Waiting);
    assert_eq!(rt; asked_at_the_end()?, [Ok(vertex), Ok(finalization), waits]);
    assert_eq!(rt; asked_between()?, [waits, Ok(vertex), Ok(finalization)]);
    Ok(())
}

// The report counts neither a vertex that no triangle names nor a triangle with a corner twice.
const REPORTS: [(&[u8], &str); 3] = [
    (
        b"",
        "vertices 0\ntriangles 0\nfinalized 0\nwidth 0\narea 0\nend ok\n",
    ),
    (
        b"v 0 0 0\nx 1\nf 1 1 1\n",
        "vertices 0\ntriangles 0\nfinalized 0\nwidth 0\narea 0\nfault check 10 3\n",
    ),
    (
        b"# tile\nv 0 0 0\nv 10 0 0\nv 10 10 0\nv 5 5 5\nf 1 2 3\nf 1 1 2\nx 1\nx 2\nx 3\nx 4\n",
        "vertices 3\ntriangles 1\nfinalized 3\nwidth 3\narea 100\nend ok\n",
    ),
];

#[test]
fn reports(rt: HostRuntime) -> Result<(), Fail> {
    for (text, expected) in REPORTS {
        let mut report = text_report();
        report.push(text);
        check_spelled(&rt, &report.finish(), expected)?;
    }
    Ok(())
}
