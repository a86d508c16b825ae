ghost use Rattle.std.specs.Prelude.{◌≡◌};
ghost use Rattle.mesh_reader.specs.Readers.{kept, leaves, reader_means, reader_port, reader_lawful, reader_takes_text, LineTaken, OpenOr, kept_fed};
ghost use Rattle.mesh_stream.specs.Calls.{Nexted, Fed, Closed};

use super::TextReader;
use crate::line::{front_line, in_time};
use mesh_stream::event::Event;
use mesh_stream::fault::{LayerName, Refusal};
use mesh_stream::stage::{Inlet, Stage, Standing};

impl TextReader {
    // Reads the line at the front and drops it, or answers how the reader stands if the line is incomplete or at fault. None
    // where it held no event.
    fn take_line(&mut self) -> Result<Option<Event>, Standing>
        ensures { LineTaken self.old result self.new }
    {
        let Some(line) = front_line(self.kept.as_slice(), self.closed, self.next) else {
            return Err(if self.closed {
                Standing::Ended
            } else {
                Standing::Waiting
            });
        };
        let place = self.next.line;
        let content = in_time(place, line.content).map_err(|cause| Standing::faulty(
            LayerName::Reader,
            cause,
            place,
        ))?;
        self.kept.consume(line.length);
        match &content {
            None => self.next.line += 1,
            Some(event) => self.next.pass(event),
        }
        Ok(content)
    }

    // Feeding and closing are refused once the reader is closed.
    fn check_open(&self) -> Result<(), Refusal>
        ensures { OpenOr result self.now.closed }
    {
        if self.closed {
            return Err(Refusal::InletClosed);
        }
        Ok(())
    }
}

impl Stage for TextReader {
    type Item = Event;

    ghost meaning = { reader_means };

    ghost port = { reader_port };

    ghost lawful = { reader_lawful };

    fn next(&mut self) -> Result<Event, Standing>
        ensures rule { Nexted (reader_port self.old) (reader_means self.old) result (reader_port self.new) (reader_means self.new) }
        ensures left { kept self.new ≡ leaves self.old }
    {
        loop {
            if let Some(event) = self.take_line()? {
                return Ok(event);
            }
        }
    }
}

impl Inlet for TextReader {
    ghost takes_text = { reader_takes_text };

    fn room(&self) -> usize {
        if self.closed { 0 } else { self.kept.room() }
    }

    fn feed(&mut self, piece: &[u8]) -> Result<usize, Refusal>
        ensures rule { Fed (reader_port self.old) (reader_means self.old) piece.now result (reader_port self.new) (reader_means self.new) }
        ensures kept { kept self.new ≡ kept_fed (kept self.old) piece.now result }
    {
        self.check_open()?;
        Ok(self.kept.take(piece))
    }

    fn close(&mut self) -> Result<(), Refusal>
        ensures rule { Closed (reader_port self.old) (reader_means self.old) result (reader_port self.new) (reader_means self.new) }
        ensures kept { kept self.new ≡ kept self.old }
    {
        self.check_open()?;
        self.closed = true;
        Ok(())
    }
}
