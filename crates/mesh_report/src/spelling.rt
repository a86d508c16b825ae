// Spelling a report into a buffer that the caller hands over.
ghost use Rattle.std.specs.Prelude.{◌≤◌, length};
ghost use Rattle.mesh_report.specs.Spelling.{report_text};
ghost use Rattle.mesh_report.specs.SpellingExamples.{SpellingExamples};
ghost use Rattle.mesh_report.specs.Writing.{Spelled, SpelledInto};

use crate::totals::Totals;
use mesh_stream::fault::Refusal;
use mesh_stream::stage::Standing;
use number::spell_byte;
use standing::spell_standing;

mod entry;
mod number;
mod standing;

// How many bytes the buffer has at the least.
const REPORT_ROOM: usize = 256;

impl Totals {
    // Spells the report into the front of the buffer, and answers how many bytes it has. Any report fits into 256 bytes, so a
    // smaller buffer is refused.
    pub fn spell(&self, standing: Standing, buffer: &mut [u8]) -> Result<usize, Refusal>
        ensures { SpelledInto (report_text self.now standing) buffer.old result buffer.new }
    {
        if buffer.len() < REPORT_ROOM {
            return Err(Refusal::BufferTooSmall);
        }
        Ok(self.spell_lines(standing, buffer))
    }

    // Each line gets the rest of the buffer, so that it cannot touch the lines before.
    fn spell_lines(&self, standing: Standing, buffer: &mut [u8]) -> usize
        requires { 256 ≤ length buffer.old }
        ensures { Spelled (report_text self.now standing) buffer.old result buffer.new }
    {
        let mut at = self.spell_entries(buffer);
        at += spell_standing(&mut buffer[at..], standing);
        at + spell_byte(&mut buffer[at..], b'\n')
    }
}

// The worked examples of the spelling: nothing to run, only to prove.
pub fn spelling_examples()
    ensures { SpellingExamples }
{}
