// Regions of space: sets of points.
#![tactic(auto)]

pub mod aligned_box;
pub mod half_space;
pub mod region;
#[cfg(test)]
mod tests;
