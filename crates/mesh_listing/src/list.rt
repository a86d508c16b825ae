ghost use Rattle.std.specs.Prelude.{◌≡◌, [], IfOk, IfSome, OnOk};
ghost use Rattle.std.specs.Io.Buffered.{writer_buffer, writer_contents};
ghost use Rattle.std.specs.Io.KnownBytes.{Appends};
ghost use Rattle.mesh_stream.specs.Meaning.{closed};
ghost use Rattle.mesh_listing.specs.Lines.{listing, IfShown};
ghost use Rattle.mesh_listing.specs.Steps.{ListedAs, TextReadTo};

use crate::pass::pass_text;
use crate::print::{print_items, print_standing};
use mesh_stream::stage::{Inlet, Standing};
use std::fmt::Display;
use std::io;
use std::io::{BufWriter, Read, Write};

// How much of the text is read at a time, at most.
const PIECE: usize = 4096;

// Whether all of a text was listed, or it is longer than any text can be.
enum Listed {
    Whole,
    Endless,
}

// Prints what the stage means of the whole text that the input gives. It reads no piece more once the stage has ended or is at fault. The
// loop has a bound since an input may go on for ever; no text is so long that it takes 2^64 - 1 reads.
fn list_until_end<I: Display + Drop, R: Read, S: Inlet<Item = I>, W: Write + Drop>(
    input: &mut R,
    stage: &mut S,
    out: &mut BufWriter<W>,
) -> io::Result<Listed>
    ensures listed { IfShown I.output (λ shown. IfSome (R.Read.remaining input.old) (λ text. IfOk result
        (ListedAs shown text (S.Stage.meaning stage.old text closed)
        (writer_contents W.Write.contents out.old) (writer_contents W.Write.contents out.new)))) }
    ensures read { IfOk result (λ l. l ≡ Listed.Whole →
        TextReadTo (R.Read.remaining input.old) (R.Read.remaining input.new) (S.Stage.meaning stage.old)) }
    ensures flushed { IfOk result (λ l. l ≡ Listed.Whole → writer_buffer out.new ≡ []) }
{
    let mut piece = [0; PIECE];
    for _ in 0..u64::MAX {
        match print_items(stage, out)? {
            Standing::Waiting => pass_text(input, stage, &mut piece)?,
            standing => {
                print_standing(standing, out)?;
                return Ok(Listed::Whole);
            }
        }
    }
    Ok(Listed::Endless)
}

// Prints a line for each item that the stage means of the whole text that the input gives, and last one for how it stands then. No item
// waits for text that comes later. A text that does not end is an error.
pub fn list_text<I: Display + Drop, R: Read, S: Inlet<Item = I>, W: Write + Drop>(
    input: &mut R,
    stage: &mut S,
    out: &mut BufWriter<W>,
) -> io::Result<()>
    ensures listed { IfShown I.output (λ shown. IfSome (R.Read.remaining input.old) (λ text. OnOk result
        (Appends (writer_contents W.Write.contents out.old) (writer_contents W.Write.contents out.new)
        (listing shown (S.Stage.meaning stage.old text closed))))) }
    ensures read { OnOk result
        (TextReadTo (R.Read.remaining input.old) (R.Read.remaining input.new) (S.Stage.meaning stage.old)) }
    ensures flushed { OnOk result (writer_buffer out.new ≡ []) }
{
    match list_until_end(input, stage, out)? {
        Listed::Whole => Ok(()),
        Listed::Endless => Err(io::Error::other("the text does not end")),
    }
}
