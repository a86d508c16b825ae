// The five layers by their windows: what each does with what it keeps, and that this gives what the rules make of the whole list.
#![tactic(auto)]

pub mod whole_mesh;
