// Makers of events and of readers, and what a stage tells.
use mesh_pipe::{Event, Inlet, Point, Report, Stage, Standing, TextReader};
use std::alloc::Global;
use std::fmt::{Display, Write};
use std::process::Abort;
use std::str::from_utf8;
use std::test::Fail;

// Events for a list stage, which gives each its position as its place.
pub fn vertex_at(number: u32, x: i32, y: i32, z: i32) -> Event {
    Event::Vertex {
        place: 0,
        number,
        at: Point { x, y, z },
    }
}

pub fn vertex(number: u32) -> Event {
    vertex_at(number, 0, 0, 0)
}

pub fn triangle(a: u32, b: u32, c: u32) -> Event {
    Event::Triangle { place: 0, a, b, c }
}

pub fn finalization(vertex: u32) -> Event {
    Event::Finalization { place: 0, vertex }
}

// Fills the records with vertices, numbered from 1.
pub fn number_vertices(records: &mut [Event]) {
    for (record, number) in records.iter_mut().zip(1..=4096) {
        *record = vertex(number);
    }
}

// A reader that took the whole text and is still open.
pub fn open_with(rt: &impl Abort, text: &[u8]) -> Result<TextReader, Fail> {
    let mut reader = TextReader::new();
    assert_eq!(rt; reader.feed(text)?, text.len());
    Ok(reader)
}

// A reader that took the whole text and was closed.
pub fn closed_with(rt: &impl Abort, text: &[u8]) -> Result<TextReader, Fail> {
    let mut reader = open_with(rt, text)?;
    reader.close()?;
    Ok(reader)
}

// Takes what the stage has now, writes down each item as it is shown, and answers how the stage then stands.
fn take_all<I: Display + Drop, S: Stage<Item = I>>(
    stage: &mut S,
    told: &mut String,
) -> Result<Standing, Fail> {
    for _ in 0..100 {
        match stage.next() {
            Ok(item) => write!(told, "{item}, ")?,
            Err(standing) => return Ok(standing),
        }
    }
    Err(Fail::new("more than 100 items"))
}

// The stage hands over these items now, and then stands so, twice.
pub fn check_tells<I: Display + Drop, S: Stage<Item = I>>(
    rt: &impl Abort,
    heap: Global,
    stage: &mut S,
    expected: &str,
) -> Result<(), Fail> {
    let mut told = String::new(heap);
    let standing = take_all(stage, &mut told)?;
    write!(told, "{standing}")?;
    assert_eq!(rt; told.as_str(), expected);
    assert_eq!(rt; stage.next().err(), Some(standing));
    Ok(())
}

// The inlet tells this while it is open, and then that once it is closed.
pub fn check_closing<I: Display + Drop, P: Inlet<Item = I>>(
    rt: &impl Abort,
    heap: Global,
    inlet: &mut P,
    open: &str,
    closed: &str,
) -> Result<(), Fail> {
    check_tells(rt, heap, inlet, open)?;
    inlet.close()?;
    check_tells(rt, heap, inlet, closed)
}

// The report is spelled so.
pub fn check_spelled(rt: &impl Abort, report: &Report, expected: &str) -> Result<(), Fail> {
    let mut buffer = [0; 256];
    let size = report.spell(&mut buffer)?;
    assert!(rt; size <= 256);
    assert_eq!(rt; from_utf8(&buffer[0..size])?, expected);
    Ok(())
}
