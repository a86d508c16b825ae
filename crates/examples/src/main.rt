// What the library is for, a function for each use; each prints what it gets.
#![tactic(auto)]

use mesh_pipe::{
    AlignedBox, Grid, Inlet, Point, Report, Stage, Standing, TextReader, ask_on, border_list,
    check, clean, clip, compact, renumber, text_report,
};
use std::fmt::Display;
use std::io;
use std::io::{BufWriter, Write};

// Prints an item, or how a stage stands that has none now.
fn show<I: Display, W: Write>(answer: &Result<I, Standing>, out: &mut W) -> io::Result<()> {
    match answer {
        Ok(item) => writeln!(out, "{item}"),
        Err(standing) => writeln!(out, "{standing}"),
    }
}

// Layers over a text reader, whose text comes in pieces.
fn pile_over_a_reader<W: Write>(out: &mut W) -> anyhow::Result<()> {
    let low = Point { x: 0, y: 0, z: 0 };
    let high = Point {
        x: 100,
        y: 100,
        z: 100,
    };
    let region = AlignedBox::new(low, high)?;
    let mut pile = compact(clip(clean(check(TextReader::new())), region));
    pile.feed(b"v 0 0 0\nv 90 0 0\nv 300 0 0\nv 0 90 0\n")?;
    show(&pile.next(), out)?;
    pile.feed(b"f 4 1 2\nx 1\nx 2\nx 3\nx 4\n")?;
    pile.close()?;
    for _ in 0..8 {
        show(&pile.next(), out)?;
    }
    Ok(())
}

// Layers over a grid, with a region of one's own choice.
fn pile_over_a_grid<W: Write>(out: &mut W) -> anyhow::Result<()> {
    let low = Point { x: 0, y: 5, z: 0 };
    let high = Point { x: 10, y: 10, z: 0 };
    let region = AlignedBox::new(low, high)?;
    let mut pile = renumber(clip(Grid::new(2, 2, 10)?, region));
    let mut answers = [Err(Standing::Waiting); 5];
    ask_on(&mut pile, &mut answers);
    for answer in &answers {
        show(answer, out)?;
    }
    Ok(())
}

// The border edges of a mesh.
fn border<W: Write>(out: &mut W) -> anyhow::Result<()> {
    let mut border = border_list(check(Grid::new(2, 2, 10)?));
    for _ in 0..5 {
        show(&border.next(), out)?;
    }
    Ok(())
}

// A report kept up while the text comes in, a piece at a time.
fn report_in_a_loop<W: Write>(text: &[u8], out: &mut W) -> anyhow::Result<()> {
    let mut pile = clean(check(TextReader::new()));
    let mut report = Report::new();
    for piece in text.chunks(16) {
        pile.feed(piece)?;
        let taken = report.run(&mut pile, 100);
        let totals = report.totals();
        writeln!(out, "{taken} events more, {} vertices", totals.vertices)?;
    }
    pile.close()?;
    report.run(&mut pile, 100);
    let mut buffer = [0; 256];
    let length = report.spell(&mut buffer)?;
    out.write_all(&buffer[0..length])?;
    Ok(())
}

// The report on a mesh text that comes in pieces, as the program `report` prints it.
fn report_on_pieces<W: Write>(out: &mut W) -> anyhow::Result<()> {
    let mut report = text_report();
    report.push(b"v 1 2 ");
    report.push(b"3\nx 1");
    let report = report.finish();
    let mut buffer = [0; 256];
    let length = report.spell(&mut buffer)?;
    out.write_all(&buffer[0..length])?;
    Ok(())
}

fn run_all<W: Write>(out: &mut W) -> anyhow::Result<()> {
    pile_over_a_reader(out)?;
    pile_over_a_grid(out)?;
    border(out)?;
    report_in_a_loop(
        b"v 0 0 0\nv 10 0 0\nv 10 10 0\nf 1 2 3\nx 1\nx 2\nx 3\n",
        out,
    )?;
    report_on_pieces(out)?;
    out.flush()?;
    Ok(())
}

fn main(rt: HostRuntime) -> anyhow::Result<()> {
    run_all(&mut BufWriter::new(rt.alloc(), rt.stdout())?)
}
