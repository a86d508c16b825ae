// Border edges, and the border list of a whole list of events.
#![tactic(auto)]

pub mod edge;
pub mod examples;
