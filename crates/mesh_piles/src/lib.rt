// Piles: each call puts one layer more on a stage.
#![tactic(auto)]

pub mod pile;
pub mod text_report;
