// Judging events by the acceptance rules, with a window over the live vertices.
#![tactic(auto)]

pub mod judge;
pub mod live;
