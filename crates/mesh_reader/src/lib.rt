// The text reader: mesh text in, events out.
#![tactic(auto)]

mod content;
pub mod examples;
mod kept;
mod line;
mod numbers;
mod numeral;
pub mod reader;
mod scan;
