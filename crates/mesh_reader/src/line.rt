ghost use Rattle.std.specs.Prelude.{◌≡◌, length, nat_le};
ghost use Rattle.mesh_stream.specs.declared.event.Event.TheVariants.{Triangle as Three, Finalization as Final};
ghost use Rattle.mesh_reader.specs.Text.{words, line_end};
ghost use Rattle.mesh_reader.specs.Numerals.{coordinate_of, vertex_of};
ghost use Rattle.mesh_reader.specs.Scanning.{front, rest_words, rest_numerals, SameLine};
ghost use Rattle.mesh_reader.specs.Reading.{of_three, of_one, vertex_event, by_letter, by_words, in_time};
ghost use Rattle.mesh_reader.specs.Keeping.{Front};
ghost use Rattle.mesh_reader.specs.Lines.{Begun, IsReading, tuple};

use super::content::{FirstWord, Line};
use super::numbers::Numbers;
use super::numeral::{Numeral, coordinate, vertex_number};
use super::scan::Rest;
use mesh_stream::event::{Event, Point};
use mesh_stream::fault::Cause;

// A line with so many bytes before its line end is at fault.
const LONG_LINE: usize = 128;

const MOST_LINES: u32 = 1_000_000_000;

// Three words, each read in the same way.
fn three<T: Copy, F: Fn(Option<Numeral>) -> Result<T, Cause>>(
    words: Option<[Option<Numeral>; 3]>,
    read: F,
) -> Result<(T, T, T), Cause>
    requires { F.IsAlwaysCallable read }
    ensures { (rule : _) → IsReading (F.post read) rule → result ≡ of_three rule tuple words }
{
    let [a, b, c] = words.ok_or(Cause::WordCount)?;
    Ok((read(a)?, read(b)?, read(c)?))
}

fn vertex(next: Numbers, words: Option<[Option<Numeral>; 3]>) -> Result<Event, Cause>
    ensures { result ≡ of_three coordinate_of (vertex_event next.line next.vertex) words }
{
    let (x, y, z) = three(words, coordinate)?;
    Ok(Event::Vertex {
        place: next.line,
        number: next.vertex,
        at: Point { x, y, z },
    })
}

fn triangle(place: u32, words: Option<[Option<Numeral>; 3]>) -> Result<Event, Cause>
    ensures { result ≡ of_three vertex_of (Three place) words }
{
    let (a, b, c) = three(words, vertex_number)?;
    Ok(Event::Triangle { place, a, b, c })
}

fn finalization(place: u32, words: Option<[Option<Numeral>; 1]>) -> Result<Event, Cause>
    ensures { result ≡ of_one vertex_of (Final place) words }
{
    let [vertex] = words.ok_or(Cause::WordCount)?;
    Ok(Event::Finalization {
        place,
        vertex: vertex_number(vertex)?,
    })
}

impl Rest<'_> {
    fn first_word(&mut self) -> FirstWord
        ensures { Begun self.old result self.new }
    {
        self.skip_blanks();
        match self.next_in_word() {
            None => FirstWord::Missing,
            Some(b'#') => FirstWord::Comment,
            Some(byte) if self.at_word_end() => FirstWord::Letter(char::from(byte)),
            Some(_) => FirstWord::Other,
        }
    }

    // What the letter in front makes of the rest of the line.
    fn behind_letter(&mut self, letter: char, next: Numbers) -> Result<Event, Cause>
        ensures same { SameLine self.old self.new }
        ensures event { result ≡ by_letter next.line next.vertex letter (rest_numerals self.old) }
    {
        match letter {
            'v' => vertex(next, self.exactly()),
            'f' => triangle(next.line, self.exactly()),
            'x' => finalization(next.line, self.exactly()),
            _ => Err(Cause::UnknownWord),
        }
    }

    // What the line holds.
    fn content(&mut self, next: Numbers) -> Result<Option<Event>, Cause>
        ensures same { SameLine self.old self.new }
        ensures content { result ≡ by_words next.line next.vertex (rest_words self.old) }
    {
        match self.first_word() {
            FirstWord::Missing | FirstWord::Comment => Ok(None),
            FirstWord::Letter(letter) => self.behind_letter(letter, next).map(Some),
            FirstWord::Other => Err(Cause::UnknownWord),
        }
    }
}

// What the line at the front of the bytes holds, and how long it is without its line end.
fn read_line(bytes: &[u8], next: Numbers) -> Line
    ensures content { result.content ≡ by_words next.line next.vertex (words (front line_end bytes.now)) }
    ensures length { result.length ≡ length (front line_end bytes.now) }
{
    let mut rest = Rest { bytes };
    let content = rest.content(next);
    rest.skip_line();
    Line {
        content,
        length: bytes.len() - rest.bytes.len(),
    }
}

// A text has at most 1,000,000,000 lines: what the next one holds is not looked at.
pub(crate) fn in_time(
    place: u32,
    content: Result<Option<Event>, Cause>,
) -> Result<Option<Event>, Cause>
    ensures { result ≡ in_time place content }
{
    if place > MOST_LINES {
        return Err(Cause::TooManyLines);
    }
    content
}

fn is_long(length: usize) -> bool
    ensures { result ≡ nat_le 128 length }
{
    length >= LONG_LINE
}

// The line at the front of the bytes kept, unless it is incomplete: what it holds, and how many bytes it takes up. No more
// bytes are looked at than a line may have, since a longer one is at fault.
pub(crate) fn front_line(kept: &[u8], closed: bool, next: Numbers) -> Option<Line>
    ensures { Front closed next.line next.vertex kept.now result }
{
    let length = kept.len().min(LONG_LINE);
    let line = read_line(&kept[0..length], next);
    if line.length < length {
        return Some(Line {
            content: line.content,
            length: line.length + 1,
        });
    }
    if is_long(length) {
        return Some(Line {
            content: Err(Cause::LineTooLong),
            length: LONG_LINE,
        });
    }
    if closed && length > 0 {
        Some(line)
    } else {
        None
    }
}
