// Keeps 1,000 vertices in a table: in each round one comes in, one is found, and the oldest goes out.
//     table_bench          runs a few rounds, and prints what is left
//     table_bench ROUNDS   prints also the nanoseconds of an operation in the first and in the last tenth of the rounds
#![tactic(auto)]

use anyhow::{Context, anyhow};
use mesh_table::key::Key;
use mesh_table::table::Table;
use std::env;
use std::time::{Duration, Instant};

const LIVE: u32 = 1000;

// Operations in a round.
const OPERATIONS: u128 = 3;

#[derive(Clone, Copy)]
struct Vertex {
    x: u32,
    y: u32,
    z: u32,
    triangles: u32,
}

impl Vertex {
    fn numbered(number: u32) -> Vertex {
        Vertex {
            x: number,
            y: number.wrapping_mul(3),
            z: number.wrapping_mul(7),
            triangles: 6,
        }
    }

    fn sum(&self) -> u32 {
        self.x
            .wrapping_add(self.y)
            .wrapping_add(self.z)
            .wrapping_add(self.triangles)
    }
}

#[derive(Drop)]
struct Window {
    table: Table<Vertex, 2048>,
    // the number of the next vertex
    next: u32,
    checksum: u32,
}

impl Window {
    fn new() -> anyhow::Result<Window> {
        let mut window = Window {
            table: Table::new(1024).context("the table has too few slots")?,
            next: 0,
            checksum: 0,
        };
        for _ in 0..LIVE {
            window.add_next()?;
        }
        Ok(window)
    }

    fn add_next(&mut self) -> anyhow::Result<()> {
        let vertex = Vertex::numbered(self.next);
        // with `?` on what `insert` answers an operation takes twice as long
        if self.table.insert(Key::vertex(self.next), vertex).is_err() {
            return Err(anyhow!("a vertex is not taken in"));
        }
        self.next = self.next.wrapping_add(1);
        Ok(())
    }

    fn sum_up(&mut self, vertex: Option<Vertex>) {
        if let Some(vertex) = vertex {
            self.checksum = self.checksum.wrapping_add(vertex.sum());
        }
    }

    fn round(&mut self) -> anyhow::Result<()> {
        self.add_next()?;
        let age = self.next.wrapping_mul(7919) % LIVE;
        let found = self
            .table
            .find(Key::vertex(self.next.wrapping_sub(1 + age)));
        self.sum_up(found);
        let oldest = self
            .table
            .remove(Key::vertex(self.next.wrapping_sub(1 + LIVE)));
        self.sum_up(oldest);
        Ok(())
    }

    fn run(&mut self, rounds: u32) -> anyhow::Result<()> {
        for _ in 0..rounds {
            self.round()?;
        }
        Ok(())
    }
}

// How long the rounds take.
fn timed(rt: &HostRuntime, window: &mut Window, rounds: u32) -> anyhow::Result<Duration> {
    let start = Instant::now(rt)?;
    window.run(rounds)?;
    Ok(start.elapsed(rt)?)
}

fn print_time(rt: &HostRuntime, tenth: &str, time: Duration, rounds: u32) -> anyhow::Result<()> {
    let hundredths = time.as_nanos() * 100 / (u128::from(rounds.max(1)) * OPERATIONS);
    let whole = hundredths / 100;
    let part = hundredths % 100;
    println!(rt; "{tenth} tenth: {whole}.{part:02} ns an operation")?;
    Ok(())
}

fn measure(rt: &HostRuntime, window: &mut Window, rounds: u32) -> anyhow::Result<()> {
    let tenth = rounds / 10;
    // in another table, so that the machine is as warm in the first tenth as in the last
    Window::new()?.run(tenth)?;
    let first = timed(rt, window, tenth)?;
    window.run(rounds - 2 * tenth)?;
    let last = timed(rt, window, tenth)?;
    print_time(rt, "first", first, tenth)?;
    print_time(rt, "last", last, tenth)
}

fn run(rt: &HostRuntime) -> anyhow::Result<()> {
    let mut window = Window::new()?;
    let mut rounds = 5000;
    match env::args(rt)?.nth(1) {
        Some(word) => {
            rounds = word.as_str().parse::<u32>()?;
            measure(rt, &mut window, rounds)?;
        }
        None => window.run(rounds)?,
    }
    let left = window.table.len();
    let checksum = window.checksum;
    println!(rt; "{rounds} rounds, {left} records left, checksum {checksum}")?;
    Ok(())
}

fn main(rt: HostRuntime) -> anyhow::Result<()> {
    run(&rt)
}
