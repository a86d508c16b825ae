// The filters of the layers that judge the events below and hand over what is made of them.
#![tactic(auto)]

pub mod check;
pub mod clean;
pub mod clip;
pub mod compact;
pub mod renumber;
