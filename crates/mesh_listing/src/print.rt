// What is printed of a stage.
ghost use Rattle.std.specs.Prelude.{◌≡◌, [], IfOk, OnOk};
ghost use Rattle.std.specs.Io.Buffered.{writer_buffer, writer_contents};
ghost use Rattle.std.specs.Io.KnownBytes.{Appends};
ghost use Rattle.mesh_stream.specs.Calls.{SameKind};
ghost use Rattle.mesh_stream.specs.Shown.{standing_text};
ghost use Rattle.mesh_listing.specs.Lines.{line, IfShown};
ghost use Rattle.mesh_listing.specs.Steps.{Printed, SameStanding, Emptied};

use mesh_stream::stage::{Stage, Standing};
use std::fmt::Display;
use std::io;
use std::io::{BufWriter, Write};

// Prints the items that the stage has now, so that none waits for more of the text, and answers how it stands then.
pub fn print_items<I: Display + Drop, S: Stage<Item = I>, W: Write + Drop>(
    stage: &mut S,
    out: &mut BufWriter<W>,
) -> io::Result<Standing>
    ensures printed { OnOk result (IfShown I.output (λ shown. Printed shown
        (S.Stage.meaning stage.old) (writer_contents W.Write.contents out.old)
        (S.Stage.meaning stage.new) (writer_contents W.Write.contents out.new))) }
    ensures port_kept { SameKind (S.Stage.port stage.old) (S.Stage.port stage.new) }
    ensures standing_kept { OnOk result (SameStanding (S.Stage.meaning stage.old) (S.Stage.meaning stage.new)) }
    ensures flushed { OnOk result (writer_buffer out.new ≡ []) }
    ensures none_left { IfOk result (λ s. Emptied s (S.Stage.port stage.new) (S.Stage.meaning stage.new)) }
{
    loop {
        match stage.next() {
            Ok(item) => writeln!(out, "{item}")?,
            Err(standing) => {
                out.flush()?;
                return Ok(standing);
            }
        }
    }
}

// Prints how a stage stands, the last line.
pub fn print_standing<W: Write + Drop>(standing: Standing, out: &mut BufWriter<W>) -> io::Result<()>
    ensures printed { OnOk result (Appends (writer_contents W.Write.contents out.old) (writer_contents W.Write.contents out.new)
        (line (standing_text standing))) }
    ensures flushed { OnOk result (writer_buffer out.new ≡ []) }
{
    writeln!(out, "{standing}")?;
    out.flush()
}
