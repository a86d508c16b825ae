ghost use Rattle.std.specs.Prelude.{◌≡◌};
ghost use Rattle.mesh_table.specs.Tables.{limit_of};

use mesh_edge_windows::open_edge::OpenEdge;
use mesh_table::table::Table;

mod closing;
mod using;

// How many edges may be open at once, and the slots in which they are kept: twice as many, so that searches stay short.
const OPEN_LIMIT: usize = 4096;

const SLOTS: usize = 8192;

// The open edges, each under the key of its two ends.
#[derive(Drop)]
pub(crate) struct OpenEdges {
    table: Table<OpenEdge, SLOTS>,
}
