// Reading a text, by the rules over all of its bytes. No text here has so many lines that this is a fault.
use crate::answer::Ends;
use crate::memory::Made;
use mesh_pipe::{Event, Point};
use std::alloc::Global;

const LONGEST_LINE: usize = 127;

pub const LARGEST_COORDINATE: u32 = 100_000;

pub const LARGEST_NUMBER: u32 = 100_000_000;

// What a text gives.
#[derive(Drop)]
pub struct Reading {
    pub events: Vec<Event>,
    // how many bytes lie up to the end of each event's line
    pub lengths: Vec<usize>,
    // how many bytes lie before the line that is incomplete or at fault
    pub settled: usize,
    pub ends: Ends,
}

fn is_blank(byte: u8) -> bool {
    matches!(byte, b' ' | b'\t' | b'\r')
}

fn words(alloc: Global, line: &[u8]) -> Made<Vec<&[u8]>> {
    line.split(|byte| is_blank(*byte))
        .filter(|word| !word.is_empty())
        .collect(alloc)
}

// The number that the digits spell, or cause 5.
fn number(digits: &[u8]) -> Result<u32, u8> {
    if !(1..=9).contains(&digits.len()) || !digits.iter().all(|byte| byte.is_ascii_digit()) {
        return Err(5);
    }
    Ok(
        digits.iter().fold(0u32, |value, digit| {
            value
                .wrapping_mul(10)
                .wrapping_add(u32::from(digit.wrapping_sub(b'0')))
        }),
    )
}

fn coordinate(word: &[u8]) -> Result<i32, u8> {
    let (digits, is_negative) = match word {
        [b'-', digits @ ..] => (digits, true),
        _ => (word, false),
    };
    let size = number(digits)?;
    if size > LARGEST_COORDINATE {
        return Err(6);
    }
    Ok(if is_negative {
        -(size as i32)
    } else {
        size as i32
    })
}

fn vertex_number(word: &[u8]) -> Result<u32, u8> {
    let number = number(word)?;
    if number == 0 || number > LARGEST_NUMBER {
        return Err(6);
    }
    Ok(number)
}

fn vertex(place: u32, number: u32, words: &[&[u8]]) -> Result<Event, u8> {
    let [x, y, z] = words else {
        return Err(4);
    };
    let at = Point {
        x: coordinate(x)?,
        y: coordinate(y)?,
        z: coordinate(z)?,
    };
    Ok(Event::Vertex { place, number, at })
}

fn triangle(place: u32, words: &[&[u8]]) -> Result<Event, u8> {
    let [a, b, c] = words else {
        return Err(4);
    };
    Ok(Event::Triangle {
        place,
        a: vertex_number(a)?,
        b: vertex_number(b)?,
        c: vertex_number(c)?,
    })
}

fn finalization(place: u32, words: &[&[u8]]) -> Result<Event, u8> {
    let [vertex] = words else {
        return Err(4);
    };
    Ok(Event::Finalization {
        place,
        vertex: vertex_number(vertex)?,
    })
}

// What a line says where so many vertices came before it: an event or none, or why it is at fault.
fn judged(place: u32, vertices: u32, words: &[&[u8]]) -> Result<Option<Event>, u8> {
    let Some((first, others)) = words.split_first() else {
        return Ok(None);
    };
    match *first {
        [b'#', ..] => Ok(None),
        b"v" => Ok(Some(vertex(place, vertices.wrapping_add(1), others)?)),
        b"f" => Ok(Some(triangle(place, others)?)),
        b"x" => Ok(Some(finalization(place, others)?)),
        _ => Err(3),
    }
}

impl Reading {
    fn new(alloc: Global) -> Reading {
        Reading {
            events: Vec::new(alloc),
            lengths: Vec::new(alloc),
            settled: 0,
            ends: Ends::Waiting,
        }
    }

    fn vertices(&self) -> u32 {
        let mut count = 0u32;
        for event in &self.events {
            if matches!(event, Event::Vertex { .. }) {
                count = count.wrapping_add(1);
            }
        }
        count
    }

    // What a line says, its end taken off.
    fn judge(&self, alloc: Global, place: u32, line: &[u8]) -> Made<Result<Option<Event>, u8>> {
        if line.len() > LONGEST_LINE {
            return Ok(Err(2));
        }
        Ok(judged(place, self.vertices(), words(alloc, line)?.as_slice()))
    }

    // Notes what the line says, up to whose end so many bytes lie. Answers whether it is no fault.
    fn note(&mut self, said: Result<Option<Event>, u8>, place: u32, length: usize) -> Made<bool> {
        match said {
            Err(cause) => {
                self.ends = Ends::Faulty {
                    layer: "reader",
                    cause,
                    place,
                };
                return Ok(false);
            }
            Ok(Some(event)) => {
                self.events.push(event)?;
                self.lengths.push(length)?;
            }
            Ok(None) => {}
        }
        self.settled = length;
        Ok(true)
    }
}

// What a text gives, open or closed.
pub fn read(alloc: Global, text: &[u8], is_closed: bool) -> Made<Reading> {
    let mut reading = Reading::new(alloc);
    let mut place = 0u32;
    let mut length = 0usize;
    for line in text.split_inclusive(|byte| *byte == b'\n') {
        place = place.saturating_add(1);
        length = length.saturating_add(line.len());
        let said = match line {
            [line @ .., b'\n'] => reading.judge(alloc, place, line)?,
            _ if is_closed || line.len() > LONGEST_LINE => reading.judge(alloc, place, line)?,
            _ => return Ok(reading),
        };
        if !reading.note(said, place, length)? {
            return Ok(reading);
        }
    }
    if is_closed {
        reading.ends = Ends::Ended;
    }
    Ok(reading)
}
