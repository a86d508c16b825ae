ghost use Rattle.mesh_table.specs.Tables.{OfEveryTable};

use crate::table::Table;

// What holds of every table that exists, by its type alone. Nothing to run, only to prove.
pub fn of_every_table<V: Copy, const N: usize>(table: &Table<V, N>)
    ensures { OfEveryTable table.now }
{}
