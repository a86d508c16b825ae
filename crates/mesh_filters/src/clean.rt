use mesh_judge::judge::Judge;

mod degenerate;
mod filter;
mod start;
mod vector;

// The layer that removes degenerate triangles.
#[derive(Drop)]
pub struct Clean {
    judge: Judge<()>,
}
