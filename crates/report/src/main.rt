// Reads a mesh text from standard input, and prints the report on what check, clean and compact make of its events.
#![tactic(auto)]

ghost use Rattle.std.specs.Prelude.{◌≡◌, ℕ, List, IfOk, IfSome, OnOk};
ghost use Rattle.mesh_stream.specs.declared.event.Event.{Event as MeshEvent};
ghost use Rattle.mesh_stream.specs.Meaning.{Outcome};
ghost use Rattle.mesh_report.specs.Streaming.{WillSay, report_of};
ghost use Rattle.mesh_piles.specs.Texts.{text_outcome};
ghost use Rattle.report.specs.Answering.{AnswersAs};
ghost use Rattle.std.specs.Io.KnownBytes.{Appends};

use mesh_piles::text_report::text_report;
use mesh_report::report::Report;
use mesh_report::stream_report::StreamReport;
use mesh_stream::event::Event;
use mesh_stream::stage::Inlet;
use std::io;
use std::io::{Read, Write};

// How much of the text is read at a time.
const PIECE: usize = 16_384;

// The finished report on all of a text, or the text is longer than any text can be.
#[derive(Drop)]
enum Answer {
    Whole(Report),
    Endless,
}

// Pushes the input piece by piece until it ends, and answers the finished report: whatever the report says of each text, it now says
// of this one. The loop has a bound since an input may go on for ever; no text is so long that it takes 2^64 - 1 reads.
fn report_on<R: Read, S: Inlet<Item = Event> + Drop>(
    input: &mut R,
    mut report: StreamReport<S>,
) -> io::Result<Answer>
    ensures { (says : List ℕ → Outcome MeshEvent) → ((t : List ℕ) → WillSay S.Stage.meaning report t (says t))
        → IfSome (R.Read.remaining input.old) (λ text. IfOk result (AnswersAs text (says text))) }
{
    let mut piece = [0; PIECE];
    for _ in 0..u64::MAX {
        let length = input.read(&mut piece)?;
        if length == 0 {
            return Ok(Answer::Whole(report.finish()));
        }
        report.push(&piece[0..length]);
    }
    Ok(Answer::Endless)
}

// The report on the text that the input gives.
fn report_on_text<R: Read>(input: &mut R) -> io::Result<Answer>
    ensures { IfSome (R.Read.remaining input.old) (λ text. IfOk result (AnswersAs text (text_outcome text))) }
{
    report_on(input, text_report())
}

// Prints the report on the text that the input gives. The buffer is large enough, so the spelling is not refused.
fn print_report<R: Read, W: Write>(input: &mut R, out: &mut W) -> io::Result<()>
    ensures { IfSome (R.Read.remaining input.old) (λ text. OnOk result (Appends (W.Write.contents out.old) (W.Write.contents out.new) (report_of (text_outcome text)))) }
{
    let report = match report_on_text(input)? {
        Answer::Whole(report) => report,
        Answer::Endless => return Err(io::Error::other("the text does not end")),
    };
    let mut text = [0; 256];
    let length = report.spell(&mut text).unwrap();
    out.write_all(&text[0..length])
}

fn main(rt: HostRuntime) -> anyhow::Result<()> {
    print_report(&mut rt.stdin(), &mut rt.stdout())?;
    Ok(())
}
