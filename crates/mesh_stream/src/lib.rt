// What flows through a mesh pipe, and the interface of all that it flows through.
#![tactic(auto)]

pub mod event;
pub mod fault;
pub mod range;
pub mod runs;
pub mod show;
pub mod stage;
