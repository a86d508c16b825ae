// A hash table of records by key, in a fixed array.
#![tactic(auto)]

pub mod key;
mod number;
mod ring;
mod slots;
pub mod table;
