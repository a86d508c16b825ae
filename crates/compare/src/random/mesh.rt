// Random meshes: events that grow step by step.
use crate::memory::Made;
use crate::random::numbers::Random;
use mesh_pipe::{Event, Point};
use std::alloc::Global;

#[derive(Drop)]
pub struct Mesh {
    pub events: Vec<Event>,
    // from the oldest on
    live: Vec<u32>,
    last: u32,
}

// How a mesh grows.
#[derive(Clone, Copy)]
enum Growth {
    // anything may come next
    Walk,
    // each vertex makes a triangle with the two before it, and the oldest goes
    Strip,
    // each vertex makes a triangle with the one before it and the first
    Fan,
}

impl Mesh {
    pub fn new(alloc: Global) -> Mesh {
        Mesh {
            events: Vec::new(alloc),
            live: Vec::new(alloc),
            last: 0,
        }
    }

    pub fn add_vertex(&mut self, at: Point) -> Made<()> {
        self.last = self.last.saturating_add(1);
        self.live.push(self.last)?;
        self.events.push(Event::Vertex {
            place: 0,
            number: self.last,
            at,
        })?;
        Ok(())
    }

    pub fn add_triangle(&mut self, [a, b, c]: [u32; 3]) -> Made<()> {
        self.events.push(Event::Triangle { place: 0, a, b, c })?;
        Ok(())
    }

    // Finalizes the live vertex at this position, from the oldest.
    pub fn finalize(&mut self, position: usize) -> Made<()> {
        if position < self.live.len() {
            let vertex = self.live.remove(position);
            self.events.push(Event::Finalization { place: 0, vertex })?;
        }
        Ok(())
    }

    // A live vertex, or 1 where there is none.
    pub fn any_live(&self, random: &mut Random) -> u32 {
        let position = random.position(self.live.len());
        self.live.get(position).copied().unwrap_or(1)
    }

    // One of the newest live vertices, or any.
    fn newest(&self, back: usize) -> u32 {
        self.live.iter().rev().nth(back).copied().unwrap_or(1)
    }

    // A number that need not be live.
    fn any_number(&self, random: &mut Random) -> u32 {
        random.below(self.last.saturating_add(3))
    }

    fn any_triangle(&self, random: &mut Random) -> [u32; 3] {
        [0; 3].map(|_| self.any_live(random))
    }

    fn walk(&mut self, random: &mut Random) -> Made<()> {
        if self.live.is_empty() {
            return self.add_vertex(point(random));
        }
        match random.below(12) {
            0..=3 => self.add_vertex(point(random)),
            4..=8 => self.add_triangle(self.any_triangle(random)),
            9..=10 => self.finalize_any(random),
            _ => self.stumble(random),
        }
    }

    // What is most often at fault.
    fn stumble(&mut self, random: &mut Random) -> Made<()> {
        if random.one_in(20) {
            let vertex = self.any_number(random);
            self.events.push(Event::Finalization { place: 0, vertex })?;
        } else if random.one_in(20) {
            self.add_triangle([
                self.any_live(random),
                self.any_number(random),
                self.any_live(random),
            ])?;
        }
        Ok(())
    }

    fn grow(&mut self, growth: Growth, random: &mut Random) -> Made<()> {
        if let Growth::Walk = growth {
            return self.walk(random);
        }
        self.add_vertex(point(random))?;
        if self.live.len() < 3 {
            return Ok(());
        }
        let [first, oldest] = match growth {
            Growth::Fan => [self.live.first().copied().unwrap_or(1), 1],
            _ => [self.newest(2), 0],
        };
        self.add_triangle([first, self.newest(1), self.newest(0)])?;
        if self.live.len() > 3 && !random.one_in(4) {
            self.finalize(oldest as usize)?;
        }
        Ok(())
    }

    fn finalize_any(&mut self, random: &mut Random) -> Made<()> {
        let live = self.live.len();
        self.finalize(random.position(live))
    }

    // Finalizes what is live, in any order.
    pub fn finish(&mut self, random: &mut Random) -> Made<()> {
        for _ in 0..self.live.len() {
            self.finalize_any(random)?;
        }
        Ok(())
    }
}

fn coordinate(random: &mut Random) -> i32 {
    if random.one_in(40) {
        return random.pick(&[100_000, -100_000, 99_999, -1, -7]);
    }
    random.pick(&[0, 0, 10, 20, 30])
}

// One of few points, so that some triangles are degenerate and some points come twice.
fn point(random: &mut Random) -> Point {
    Point {
        x: coordinate(random),
        y: coordinate(random),
        z: if random.one_in(2) {
            0
        } else {
            coordinate(random)
        },
    }
}

// A mesh of so many steps, most often finished.
pub fn any_mesh(alloc: Global, random: &mut Random, steps: u32) -> Made<Vec<Event>> {
    let mut mesh = Mesh::new(alloc);
    let growth = random.pick(&[Growth::Walk, Growth::Walk, Growth::Strip, Growth::Fan]);
    for _ in 0..steps {
        mesh.grow(growth, random)?;
    }
    if !random.one_in(4) {
        mesh.finish(random)?;
    }
    Ok(mesh.events)
}
