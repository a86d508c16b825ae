ghost use Rattle.std.specs.Prelude.{◌≡◌, ◌^◌, ◌<◌, ◌≤◌, length};
ghost use Rattle.mesh_table.specs.Probing.{size, Distinct, Reached};

use crate::slots::Slots;

pub mod facts;
mod lookup;
mod show;
mod start;
mod update;

// A hash table of records by key, at most `limit` of them, in N slots. A search goes from the home of its key to the first empty
// slot. A removal moves the records behind it up, so that no slot is spoiled, and a search is as short after any number of
// removals as in a new table.
#[derive(Drop)]
pub struct Table<V, const N: usize> {
    slots: Slots<V, N>,
    count: usize,
    limit: usize,
    ghost within: { (0 < N) × (N < 2 ^ 32) × (length slots ≡ N) },
    ghost counted: { (size slots ≡ count) × (count ≤ limit) × (limit ≤ N) },
    ghost distinct: { Distinct slots },
    ghost reached: { Reached N slots },
}

// Why a record is not taken in.
#[derive(Clone, Copy, PartialEq, Eq, Debug)]
pub enum InsertError {
    KeyPresent,
    AtLimit,
}
