// The border list by a window over the live vertices and the open edges, and that this gives the border list of the whole mesh.
#![tactic(auto)]

pub mod open_edge;
pub mod whole_mesh;
