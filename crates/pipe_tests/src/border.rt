// The border list of small texts, of many edges at one vertex, and of as many open edges as may be.
use crate::common::{check_tells, closed_with, finalization, number_vertices, triangle, vertex};
use mesh_pipe::{Event, ListStage, border_list};
use std::test::Fail;

const TEXTS: [(&[u8], &str); 6] = [
    // a closed tetrahedron
    (
        b"v 0 0 0\nv 9 0 0\nv 0 9 0\nv 0 0 9\nf 1 3 2\nf 1 2 4\nf 2 3 4\nf 3 1 4\nx 4\nx 3\nx 2\nx 1\n",
        "ended",
    ),
    // without its last triangle
    (
        b"v 0 0 0\nv 9 0 0\nv 0 9 0\nv 0 0 9\nf 1 3 2\nf 1 2 4\nf 2 3 4\nx 4\nx 3\nx 2\nx 1\n",
        "e 4 1 @6, e 3 4 @7, e 1 3 @5, ended",
    ),
    // three triangles use edge 1 2
    (
        b"v 0 0 0\nv 9 0 0\nv 0 9 0\nv 0 0 9\nv 9 9 9\nf 1 2 3\nf 2 1 4\nf 1 2 5\nx 2\nx 1\nx 3\nx 4\nx 5\n",
        "e 2 3 @6, e 4 2 @7, e 2 5 @8, e 3 1 @6, e 1 4 @7, e 5 1 @8, ended",
    ),
    // two do, in the same direction
    (
        b"v 0 0 0\nv 9 0 0\nv 0 9 0\nv 0 0 9\nf 1 2 3\nf 1 2 4\nx 1\nx 2\nx 3\nx 4\n",
        "e 3 1 @5, e 4 1 @6, e 2 3 @5, e 2 4 @6, ended",
    ),
    // a triangle with a repeated corner uses no edge; one whose corners lie in a line uses three
    (
        b"v 0 0 0\nv 9 0 0\nv 18 0 0\nf 1 1 2\nf 3 1 2\nf 2 2 3\nx 3\nx 1\nx 2\n",
        "e 3 1 @5, e 2 3 @5, e 1 2 @5, ended",
    ),
    // what came before a fault stays, and no more comes
    (
        b"v 0 0 0\nv 9 0 0\nv 0 9 0\nf 1 2 3\nx 2\nf 1 2 3\nx 1\nx 3\n",
        "e 1 2 @4, e 2 3 @4, fault border 10 6",
    ),
];

#[test]
fn small_texts(rt: HostRuntime) -> Result<(), Fail> {
    for (text, edges) in TEXTS {
        let mut border = border_list(closed_with(&rt, text)?);
        check_tells(&rt, rt.alloc(), &mut border, edges)?;
    }
    Ok(())
}

// A thousand triangles around vertex 1, each with two numbers in a row, from 2 to 1,002. When vertex 1 goes, only the first and the last
// of the 1,001 edges there are single.
#[test]
fn a_fan(rt: HostRuntime) -> Result<(), Fail> {
    let mut records = [finalization(1); 2004];
    number_vertices(&mut records[0..1002]);
    for i in 0..1000u32 {
        records[1002 + i as usize] = triangle(1, i + 2, i + 3);
    }
    records[2003] = finalization(500);
    let mut border = border_list(ListStage::new(&records));
    let edges = "e 1 2 @1003, e 1002 1 @2002, e 499 500 @1500, e 500 501 @1501, fault border 12 2";
    check_tells(&rt, rt.alloc(), &mut border, edges)
}

// 1,024 vertices, and 2,044 triangles that leave 4,096 edges open: those between numbers that are 1, 2, 3 or 6 apart, since a triangle of
// three numbers in a row adds two, and so does one of every third number, and three for each of the last four. Room for five events more.
fn crowd() -> [Event; 3073] {
    let mut records = [vertex(1); 3073];
    number_vertices(&mut records[0..1024]);
    for i in 0..1022u32 {
        records[1024 + i as usize] = triangle(i + 1, i + 2, i + 3);
    }
    for i in 0..1018u32 {
        records[2046 + i as usize] = triangle(i + 1, i + 4, i + 7);
    }
    for i in 0..4u32 {
        records[3064 + i as usize] = triangle(i + 1, i + 5, i + 10);
    }
    records
}

// One triangle more is one edge too many. But one whose edges are open already is not, and once a vertex went there is room for triangles
// that use one and three edges more.
#[test]
fn as_many_open_edges_as_may_be(rt: HostRuntime) -> Result<(), Fail> {
    let mut records = crowd();
    records[3068] = triangle(1, 2, 8);
    let mut border = border_list(ListStage::new(&records));
    check_tells(&rt, rt.alloc(), &mut border, "fault border 14 3069")?;
    records[3068] = triangle(1, 2, 3);
    records[3069] = finalization(1024);
    records[3070] = triangle(1, 2, 8);
    records[3071] = triangle(1, 20, 50);
    records[3072] = triangle(8, 2, 1);
    let mut border = border_list(ListStage::new(&records));
    let edges = "e 1024 1018 @3064, e 1021 1024 @3064, e 1024 1022 @2046, e 1023 1024 @2046, \
        fault border 12 1";
    check_tells(&rt, rt.alloc(), &mut border, edges)
}
