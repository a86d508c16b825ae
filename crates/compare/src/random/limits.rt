// Meshes at the limits of what may be live or open.
use crate::memory::Made;
use crate::random::mesh::Mesh;
use crate::random::numbers::Random;
use mesh_pipe::{Event, Point};
use std::alloc::Global;

fn add_vertices(mesh: &mut Mesh, count: u32) -> Made<()> {
    for number in 0..count {
        let at = Point {
            x: i32::try_from(number % 40).unwrap_or(0),
            y: i32::try_from(number / 40).unwrap_or(0),
            z: 0,
        };
        mesh.add_vertex(at)?;
    }
    Ok(())
}

// About as many live vertices as there may be, and some triangles among them.
pub fn crowd(alloc: Global, random: &mut Random) -> Made<Vec<Event>> {
    let mut mesh = Mesh::new(alloc);
    add_vertices(&mut mesh, random.pick(&[1023, 1024, 1024, 1025]))?;
    for _ in 0..random.below(200) {
        let corners = [0; 3].map(|_| mesh.any_live(random));
        mesh.add_triangle(corners)?;
    }
    if random.one_in(2) {
        mesh.finalize(random.position(1000))?;
        add_vertices(&mut mesh, random.pick(&[1, 2]))?;
    }
    mesh.finish(random)?;
    Ok(mesh.events)
}

// Triangles of each vertex with each next pair of those behind it, so that almost any two vertices are joined by an edge. Now and then the
// third corner is an earlier vertex, so that there is one edge more and not two.
fn join_all(mesh: &mut Mesh, random: &mut Random, count: u32) -> Made<()> {
    for first in 1..count {
        for second in first..count {
            if second % 2 == first % 2 {
                let third = if random.one_in(12) {
                    random.below(first).saturating_add(1)
                } else {
                    second.saturating_add(1)
                };
                mesh.add_triangle([first, third, second])?;
            }
        }
    }
    Ok(())
}

// About as many open edges as there may be.
pub fn net(alloc: Global, random: &mut Random) -> Made<Vec<Event>> {
    let mut mesh = Mesh::new(alloc);
    let count = random.pick(&[92, 93, 93, 94, 95, 100, 120]);
    add_vertices(&mut mesh, count)?;
    join_all(&mut mesh, random, count)?;
    for _ in 0..300 {
        let corners = [0; 3].map(|_| mesh.any_live(random));
        mesh.add_triangle(corners)?;
    }
    mesh.finish(random)?;
    Ok(mesh.events)
}
