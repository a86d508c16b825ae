// Small meshes, and what is made of them.
#![tactic(auto)]

ghost use Rattle.small_meshes.specs.SmallMeshes.{SmallMeshes};

pub mod pieces;

// What is made of the small meshes, proved of the definitions. Nothing to run, only to prove.
pub fn small_meshes()
    ensures { SmallMeshes }
{}
