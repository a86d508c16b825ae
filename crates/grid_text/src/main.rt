// Writes a grid as a mesh text: grid_text COLUMNS ROWS STEP.
#![tactic(auto)]

ghost use Rattle.std.specs.Prelude.{◌≡◌, [], OnOk, Some as Known};
ghost use Rattle.std.specs.Io.Buffered.{writer_buffer, writer_contents};
ghost use Rattle.std.specs.Io.KnownBytes.{Appends};
ghost use Rattle.mesh_stream.specs.Meaning.{unclosed};
ghost use Rattle.mesh_listing.specs.Lines.{lines};
ghost use Rattle.grid_text.specs.GridText.{text_of, GridWritten};
ghost use Rattle.grid_text.specs.Settings.{GridOfWordsWritten};

mod settings;

use crate::settings::Settings;
use mesh_bottoms::grid::Grid;
use mesh_stream::event::{Event, Point};
use mesh_stream::stage::Stage;
use std::io::{BufWriter, Write};
use std::{env, fmt, io};

// An event as a line of a mesh text: that is without its place, and without the number of a vertex.
#[derive(Clone, Copy)]
struct TextLine(Event);

impl fmt::Display for TextLine {
    ghost output = { λ l. Known (text_of l.0) };

    fn fmt<W: fmt::Write>(&self, f: &mut fmt::Formatter<W>) -> fmt::Result {
        match self.0 {
            Event::Vertex {
                at: Point { x, y, z },
                ..
            } => write!(f, "v {x} {y} {z}"),
            Event::Triangle { a, b, c, .. } => write!(f, "f {a} {b} {c}"),
            Event::Finalization { vertex, .. } => write!(f, "x {vertex}"),
        }
    }
}

// Writes all that the stage has.
fn write_all<S: Stage<Item = Event>, W: Write + Drop>(
    stage: &mut S,
    out: &mut BufWriter<W>,
) -> io::Result<()>
    ensures written { OnOk result (Appends (writer_contents W.Write.contents out.old) (writer_contents W.Write.contents out.new)
        (lines text_of (S.Stage.meaning stage.old [] unclosed).items)) }
    ensures flushed { OnOk result (writer_buffer out.new ≡ []) }
{
    while let Ok(event) = stage.next() {
        writeln!(out, "{}", TextLine(event))?;
    }
    out.flush()
}

// Writes the grid with these settings.
fn write_grid<W: Write + Drop>(
    columns: u32,
    rows: u32,
    step: u32,
    out: &mut BufWriter<W>,
) -> anyhow::Result<()>
    ensures written { OnOk result (GridWritten columns rows step
        (writer_contents W.Write.contents out.old) (writer_contents W.Write.contents out.new)) }
    ensures flushed { OnOk result (writer_buffer out.new ≡ []) }
{
    let mut grid = Grid::new(columns, rows, step)?;
    write_all(&mut grid, out)?;
    Ok(())
}

// Writes the grid with the settings on this command line, of which the first word is the program's name.
fn write_grid_of<W: Write + Drop>(words: &[String], out: &mut BufWriter<W>) -> anyhow::Result<()>
    ensures written { OnOk result (GridOfWordsWritten words.now
        (writer_contents W.Write.contents out.old) (writer_contents W.Write.contents out.new)) }
    ensures flushed { OnOk result (writer_buffer out.new ≡ []) }
{
    let settings = Settings::of(words)?;
    write_grid(settings.columns, settings.rows, settings.step, out)
}

fn run(rt: &HostRuntime) -> anyhow::Result<()> {
    let words: Vec<String> = env::args(rt)?.collect(rt.alloc())?;
    let mut out = BufWriter::new(rt.alloc(), rt.stdout())?;
    write_grid_of(&words, &mut out)
}

fn main(rt: HostRuntime) -> anyhow::Result<()> {
    run(&rt)
}
