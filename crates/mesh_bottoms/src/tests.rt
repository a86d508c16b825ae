use crate::grid::Grid;
use crate::list::ListStage;
use mesh_stream::event::{Event, Point};
use mesh_stream::fault::Refusal;
use mesh_stream::stage::{Stage, Standing};
use std::process::Abort;
use std::test::Fail;

// The makers of events and the check of a stage are this crate's own: the tests of another are not seen here.
fn vertex(place: u32, number: u32, x: i32, y: i32) -> Event {
    Event::Vertex {
        place,
        number,
        at: Point { x, y, z: 0 },
    }
}

fn triangle(place: u32, a: u32, b: u32, c: u32) -> Event {
    Event::Triangle { place, a, b, c }
}

fn finalization(place: u32, vertex: u32) -> Event {
    Event::Finalization { place, vertex }
}

// Takes the events in turn, and then finds the stage at its end, twice.
fn check_all<S: Stage<Item = Event>>(rt: &impl Abort, stage: &mut S, events: &[Event]) {
    for event in events {
        assert_eq!(rt; stage.next(), Ok(*event));
    }
    assert_eq!(rt; stage.next(), Err(Standing::Ended));
    assert_eq!(rt; stage.next(), Err(Standing::Ended));
}

#[test]
fn the_smallest_grid(rt: HostRuntime) -> Result<(), Fail> {
    let mut grid = Grid::new(2, 2, 10)?;
    let events = [
        vertex(1, 1, 0, 0),
        vertex(2, 2, 10, 0),
        vertex(3, 3, 0, 10),
        vertex(4, 4, 10, 10),
        triangle(5, 1, 2, 4),
        triangle(6, 1, 4, 3),
        finalization(7, 1),
        finalization(8, 2),
        finalization(9, 3),
        finalization(10, 4),
    ];
    check_all(&rt, &mut grid, &events);
    Ok(())
}

fn refuses(columns: u32, rows: u32, step: u32) -> bool {
    matches!(
        Grid::new(columns, rows, step),
        Err(Refusal::SettingNotAllowed)
    )
}

#[test]
fn settings(rt: HostRuntime) {
    assert!(rt; refuses(1, 2, 10));
    assert!(rt; refuses(2, 50_001, 1));
    assert!(rt; refuses(2, 2, 0));
    assert!(rt; refuses(2, 2, 100_001));
    assert!(rt; refuses(1000, 2, u32::MAX));
    assert!(rt; !refuses(1000, 50_000, 1));
    assert!(rt; !refuses(2, 2, 100_000));
}

#[test]
fn records_in_new_places(rt: HostRuntime) {
    let records = [vertex(7, 1, 0, 0), finalization(7, 1)];
    let mut list = ListStage::new(&records);
    check_all(&rt, &mut list, &[vertex(1, 1, 0, 0), finalization(2, 1)]);
}
