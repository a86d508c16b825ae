ghost use Rattle.std.specs.Prelude.{◌≡◌};
ghost use Rattle.mesh_table.specs.Tables.{record_at, records, limit_of, Lowest};

use crate::key::Key;
use crate::ring::Probe;
use crate::table::Table;

impl<V: Copy, const N: usize> Table<V, N> {
    // How many records there are.
    pub fn len(&self) -> usize
        ensures { result ≡ records self.now }
    {
        self.count
    }

    // How many records there may be.
    pub fn limit(&self) -> usize
        ensures { result ≡ limit_of self.now }
    {
        self.limit
    }

    pub fn find(&self, key: Key) -> Option<V>
        ensures { result ≡ record_at self.now key }
    {
        match self.slots.seek(key) {
            Probe::Found(i) => self.slots.value(i),
            Probe::Vacant(_) | Probe::Exhausted => None,
        }
    }

    // The record of the lowest vertex number up to `most` that has one. This looks at every slot.
    pub fn lowest_vertex(&self, most: u32) -> Option<V>
        ensures { Lowest self.now most result }
    {
        self.slots.lowest_vertex(most)
    }
}
