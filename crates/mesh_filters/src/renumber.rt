use mesh_judge::judge::Judge;

mod filter;
mod start;

// The layer that numbers the vertices 1, 2, 3 and so on.
#[derive(Drop)]
pub struct Renumber {
    // of each live vertex, its new number
    judge: Judge<u32>,
    // how many new numbers were given
    given: u32,
}
