ghost use Rattle.std.specs.Prelude.{◌≡◌};
ghost use Rattle.mesh_table.specs.Probing.{Distinct};
ghost use Rattle.mesh_table.specs.LowestVertex.{lower, LowestIn};

use crate::ring::Record;
use crate::slots::Slots;

// What has the lower vertex number up to `most`: the slot, or the lowest record so far.
fn lower<V: Copy>(
    slot: Option<Record<V>>,
    lowest: Option<Record<V>>,
    most: u32,
) -> Option<Record<V>>
    ensures { result ≡ lower slot lowest most }
{
    let bound = match &lowest {
        Some(record) => record.key.first,
        None => most,
    };
    match &slot {
        Some(record) if record.key.second == 0 && record.key.first <= bound => slot,
        _ => lowest,
    }
}

// A loop, since with `iter().flatten().filter(..).min_by_key(..)` the proof did not close.
fn lowest_of<V: Copy>(slots: &[Option<Record<V>>], most: u32) -> Option<V>
    requires { Distinct slots.now }
    ensures { LowestIn slots.now most result }
{
    let mut lowest = None;
    for slot in slots {
        lowest = lower(*slot, lowest, most);
    }
    Some(lowest?.value)
}

impl<V: Copy, const N: usize> Slots<V, N> {
    // The value at the lowest vertex number up to `most` that has one.
    pub(crate) fn lowest_vertex(&self, most: u32) -> Option<V>
        ensures { LowestIn self.now most result }
    {
        lowest_of(&self.ring.array, most)
    }
}
