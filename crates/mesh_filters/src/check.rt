use mesh_judge::judge::Judge;

mod filter;
mod start;

// The layer that hands over every event that it accepts.
#[derive(Drop)]
pub struct Check {
    judge: Judge<()>,
}
