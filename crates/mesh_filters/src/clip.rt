use mesh_judge::judge::Judge;

mod filter;
mod start;

// The layer that keeps the vertices inside a region, and what names only kept vertices.
#[derive(Drop)]
pub struct Clip<R> {
    region: R,
    // of each live vertex, whether it is kept
    judge: Judge<bool>,
}
