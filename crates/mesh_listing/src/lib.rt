// Lists a text: a line for each item that a stage means of it, and last how it stands.
#![tactic(auto)]

pub mod list;
mod pass;
mod print;
