ghost use Rattle.mesh_table.specs.Tables.{Made};

use crate::slots::Slots;
use crate::table::Table;

impl<V: Copy, const N: usize> Table<V, N> {
    // A table with no records, that will take `limit` of them, if N slots can serve it: at least one, fewer than 2^32, and not
    // fewer than the limit.
    pub fn new(limit: usize) -> Option<Table<V, N>>
        ensures { Made limit result }
    {
        if N == 0 || u32::try_from(N).is_err() || limit > N {
            return None;
        }
        Some(Table {
            slots: Slots::empty(),
            count: 0,
            limit,
        })
    }
}
