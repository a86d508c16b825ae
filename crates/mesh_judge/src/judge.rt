ghost use Rattle.std.specs.Prelude.{◌≤◌};
ghost use Rattle.mesh_judge.specs.Records.{Stray};

use crate::live::Live;
use mesh_table::table::Table;

mod accept;
mod start;

// How many vertices may be live at once, and the slots in which they are kept: twice as many, so that searches stay short.
const LIVE_LIMIT: usize = 1024;

const SLOTS: usize = 2048;

// Judges events one after the other by the acceptance rules. It keeps the live vertices, the highest vertex number and the
// count of triangles, which say all that the whole list of accepted events would.
#[derive(Drop)]
pub struct Judge<T> {
    live: Table<Live<T>, SLOTS>,
    // of the vertices so far; 0 before the first, which says no less than None would: a number must be above it
    highest: u32,
    triangles: u32,
    ghost sound: { Stray live highest → ⊥ },
    ghost numbers: { highest ≤ 100000000 },
    ghost few: { triangles ≤ 100000000 },
}
