// The rules by which the five layers rewrite a mesh stream, as definitions over whole lists.
#![tactic(auto)]

pub mod examples;
pub mod laws;
