// Texts of events, in plain or odd spellings.
use crate::memory::Made;
use crate::random::numbers::Random;
use mesh_pipe::{Event, Point};
use std::alloc::Global;

#[derive(Drop)]
struct Writer {
    text: String,
    is_odd: bool,
    random: Random,
}

impl Writer {
    // Whether the next thing is spelled oddly.
    fn is_odd(&mut self) -> bool {
        self.is_odd && self.random.one_in(6)
    }

    fn put(&mut self, piece: &str) -> Made<()> {
        self.text.push_str(piece)
    }

    fn put_blank(&mut self) -> Made<()> {
        let blank = if self.is_odd() {
            self.random.pick(&["  ", "\t", "\r", " \t ", "      "])
        } else {
            " "
        };
        self.put(blank)
    }

    fn put_number(&mut self, number: u32) -> Made<()> {
        self.put_blank()?;
        self.put_digits(number)
    }

    fn put_digits(&mut self, number: u32) -> Made<()> {
        if self.is_odd() {
            write!(self.text, "{number:09}")
        } else if self.is_odd() {
            write!(self.text, "0{number}")
        } else {
            write!(self.text, "{number}")
        }
    }

    fn put_coordinate(&mut self, coordinate: i32) -> Made<()> {
        self.put_blank()?;
        if coordinate < 0 || (coordinate == 0 && self.is_odd()) {
            self.put("-")?;
        }
        self.put_digits(coordinate.unsigned_abs())
    }

    fn put_event(&mut self, event: &Event) -> Made<()> {
        match *event {
            Event::Vertex {
                at: Point { x, y, z },
                ..
            } => {
                self.put("v")?;
                self.put_coordinate(x)?;
                self.put_coordinate(y)?;
                self.put_coordinate(z)
            }
            Event::Triangle { a, b, c, .. } => {
                self.put("f")?;
                self.put_number(a)?;
                self.put_number(b)?;
                self.put_number(c)
            }
            Event::Finalization { vertex, .. } => {
                self.put("x")?;
                self.put_number(vertex)
            }
        }
    }

    // What gives no event may stand before a line, and blanks around it.
    fn put_line(&mut self, event: &Event) -> Made<()> {
        if self.is_odd() {
            let line = self
                .random
                .pick(&["\n", " \t\r\n", "# v 1 2 3\n", "  #f\n", "#\n"]);
            self.put(line)?;
        }
        if self.is_odd() {
            self.put_blank()?;
        }
        self.put_event(event)?;
        if self.is_odd() {
            self.put_blank()?;
        }
        self.put("\n")
    }
}

// The events as a text, a line each.
pub fn text(alloc: Global, random: &mut Random, events: &[Event]) -> Made<Vec<u8>> {
    let mut writer = Writer {
        text: String::new(alloc),
        is_odd: random.one_in(2),
        random: Random::new(u64::from(random.below(u32::MAX))),
    };
    for event in events {
        writer.put_line(event)?;
    }
    Ok(writer.text.into_bytes())
}
