ghost use Rattle.std.specs.Prelude.{◌≡◌, ◌≤◌, map, length};
ghost use Rattle.std.specs.List.{AllByRecursion};
ghost use Rattle.mesh_report.specs.Spelling.{entry, entries_of, entry_lines, as_line};
ghost use Rattle.mesh_report.specs.Writing.{Written};

use super::number::{spell_byte, spell_signed, spell_text};
use crate::totals::Totals;

// A line of a word and a number: a word of ten bytes, a number of 20 and the line end at the most.
fn spell_entry(buffer: &mut [u8], word: &[u8], number: i64) -> usize
    requires word { length word.now ≤ 10 }
    requires room { 31 ≤ length buffer.old }
    ensures written { Written (as_line (entry word.now number)) buffer.old result buffer.new }
    ensures short { result ≤ 31 }
{
    let mut at = spell_text(buffer, word);
    at += spell_signed(&mut buffer[at..], number);
    at + spell_byte(&mut buffer[at..], b'\n')
}

impl Totals {
    // What the lines of the totals say. A count is spelled as the signed number that it is.
    fn entries(&self) -> [(&'static [u8], i64); 5]
        ensures said { map (λ e. (e.0.now, e.1)) result ≡ entries_of self.now }
        ensures short { AllByRecursion (λ e. length e.0.now ≤ 10) result }
    {
        [
            (b"vertices ", i64::from(self.vertices)),
            (b"triangles ", i64::from(self.triangles)),
            (b"finalized ", i64::from(self.finalized)),
            (b"width ", i64::from(self.width)),
            (b"area ", self.area),
        ]
    }

    // The lines of the totals: each gets the rest of the buffer, so that it cannot touch the lines before.
    pub(super) fn spell_entries(&self, buffer: &mut [u8]) -> usize
        requires { 155 ≤ length buffer.old }
        ensures written { Written (entry_lines (entries_of self.now)) buffer.old result buffer.new }
        ensures short { result ≤ 155 }
    {
        let mut at = 0;
        for (word, number) in self.entries() {
            at += spell_entry(&mut buffer[at..], word, number);
        }
        at
    }
}
