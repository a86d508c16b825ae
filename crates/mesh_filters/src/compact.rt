use mesh_judge::judge::Judge;

pub mod brought;
mod filter;
mod number;
mod start;

// The layer that keeps the vertices that some triangle names. It hands each over before the first triangle that names it, and numbers
// them in that order.
#[derive(Drop)]
pub struct Compact {
    // of a live vertex it notes the new number, once it has one
    judge: Judge<Option<u32>>,
    // the last new number
    given: u32,
}
