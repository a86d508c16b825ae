// Reads a mesh text from standard input, prints a line for each border edge as it comes, and last how the text stood.
#![tactic(auto)]

ghost use Rattle.std.specs.Prelude.{◌≡◌, [], IfSome, OnOk};
ghost use Rattle.std.specs.Io.Buffered.{writer_buffer, writer_contents};
ghost use Rattle.std.specs.Io.KnownBytes.{Appends};
ghost use Rattle.mesh_edges.specs.ShownEdges.{edge_text};
ghost use Rattle.mesh_listing.specs.Lines.{listing};
ghost use Rattle.border.specs.Border.{text_border};

use mesh_border::border_list::border_list;
use mesh_listing::list::list_text;
use mesh_piles::pile::check;
use mesh_reader::reader::TextReader;
use std::io::{BufWriter, Read, Write};

// Prints the border list of the text that the input gives.
fn print_border<R: Read, W: Write + Drop>(
    input: &mut R,
    out: &mut BufWriter<W>,
) -> anyhow::Result<()>
    ensures listed { IfSome (R.Read.remaining input.old) (λ text. OnOk result
        (Appends (writer_contents W.Write.contents out.old) (writer_contents W.Write.contents out.new)
        (listing edge_text (text_border text)))) }
    ensures flushed { OnOk result (writer_buffer out.new ≡ []) }
{
    let mut border = border_list(check(TextReader::new()));
    list_text(input, &mut border, out)?;
    Ok(())
}

fn main(rt: HostRuntime) -> anyhow::Result<()> {
    let mut out = BufWriter::new(rt.alloc(), rt.stdout())?;
    print_border(&mut rt.stdin(), &mut out)
}
