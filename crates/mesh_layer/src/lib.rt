// Layers: a filter over a stage is a stage again.
#![tactic(auto)]

pub mod fault;
pub mod filter;
pub mod layer;
pub mod order;
pub mod work;
