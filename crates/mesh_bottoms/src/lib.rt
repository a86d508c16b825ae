// The bottoms that take no text: the list stage and the grid.
#![tactic(auto)]

pub mod grid;
pub mod list;
#[cfg(test)]
mod tests;
