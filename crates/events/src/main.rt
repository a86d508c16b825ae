// Reads a mesh text from standard input, prints a line for each event as it comes, and last how the text stood.
#![tactic(auto)]

ghost use Rattle.std.specs.Prelude.{◌≡◌, [], IfSome, OnOk};
ghost use Rattle.std.specs.Io.Buffered.{writer_buffer, writer_contents};
ghost use Rattle.std.specs.Io.KnownBytes.{Appends};
ghost use Rattle.mesh_stream.specs.Meaning.{closed};
ghost use Rattle.mesh_stream.specs.Shown.{event_text};
ghost use Rattle.mesh_reader.specs.Reading.{reading};
ghost use Rattle.mesh_listing.specs.Lines.{listing};

use mesh_listing::list::list_text;
use mesh_reader::reader::TextReader;
use std::io::{BufWriter, Read, Write};

// Prints the events of the text that the input gives.
fn print_events<R: Read, W: Write + Drop>(
    input: &mut R,
    out: &mut BufWriter<W>,
) -> anyhow::Result<()>
    ensures listed { IfSome (R.Read.remaining input.old) (λ text. OnOk result
        (Appends (writer_contents W.Write.contents out.old) (writer_contents W.Write.contents out.new)
        (listing event_text (reading text closed)))) }
    ensures flushed { OnOk result (writer_buffer out.new ≡ []) }
{
    let mut reader = TextReader::new();
    list_text(input, &mut reader, out)?;
    Ok(())
}

fn main(rt: HostRuntime) -> anyhow::Result<()> {
    let mut out = BufWriter::new(rt.alloc(), rt.stdout())?;
    print_events(&mut rt.stdin(), &mut out)
}
