ghost use Rattle.std.specs.Prelude.{◌≡◌, ℕ, ◌<◌, List, [], length, slice_index_or};
ghost use Rattle.mesh_border.specs.FreeRows.{FreeRows};

use crate::LIVE_LIMIT;

mod joining;
mod rows;

// The words of 64 bits that make a row.
const WORDS: usize = 16;

// Which live vertices a triangle named together: a matrix of bits. Each live vertex has a row, and the column of the same number. A bit
// may stay where the column has gone to another vertex since; so a row says which vertices may be joined with its own by an edge, and no
// other is.
#[derive(Drop)]
pub(crate) struct Neighbours {
    bits: [[u64; WORDS]; LIVE_LIMIT],
    // the vertex of each row, where it has one
    vertices: [Option<u32>; LIVE_LIMIT],
    // the free rows: the first `free_count` of these
    free: [u16; LIVE_LIMIT],
    free_count: usize,
    ghost long: { (length bits ≡ 1024) × (length vertices ≡ 1024) × (length free ≡ 1024) },
    ghost wide: { (r : ℕ) → r < 1024 → length (slice_index_or bits r []) ≡ 16 },
    ghost free_rows: { FreeRows vertices free free_count },
}
