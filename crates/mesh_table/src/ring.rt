ghost use Rattle.std.specs.Prelude.{◌≡◌, ◌^◌, ◌<◌, length, slice_set};
ghost use Rattle.mesh_table.specs.Probing.{slot_at, size, home_slot, Probed, Sound};

use crate::key::Key;
use crate::number::SlotNumber;

mod shift;

// A record in a slot: what the table keeps, the value, beside the key at which it keeps it, by which a search knows it.
#[derive(Clone, Copy)]
pub(crate) struct Record<V> {
    pub(crate) key: Key,
    pub(crate) value: V,
}

// How a search ends, in one of three ways: at the key, at the first empty slot, where the key may be put, or with every slot full
// of others.
#[derive(Clone, Copy)]
pub(crate) enum Probe<const N: usize> {
    Found(SlotNumber<N>),
    Vacant(SlotNumber<N>),
    Exhausted,
}

// Slots round a ring. A key is searched from its home on, slot by slot. An array of its own, since a table's memory is fixed and
// lies in no heap. Its facts serve the slots above it, so it is not seen as a list alone.
#[derive(Drop)]
pub(crate) struct Ring<V, const N: usize> {
    pub(crate) array: [Option<Record<V>>; N],
    ghost has_slots: { 0 < N },
    ghost few_slots: { N < 2 ^ 32 },
    ghost long: { length array ≡ N },
}

impl<V: Copy, const N: usize> Ring<V, N> {
    pub(crate) fn empty() -> Ring<V, N>
        requires has_slots { 0 < N }
        requires few_slots { N < 2 ^ 32 }
        ensures sound { Sound N result.array }
        ensures bare { size result.array ≡ 0 }
    {
        Ring { array: [None; N] }
    }

    pub(crate) fn slot(&self, i: SlotNumber<N>) -> Option<Record<V>>
        ensures { result ≡ slot_at self.now.array i.entry }
    {
        self.array[i.number]
    }

    pub(crate) fn put(&mut self, i: SlotNumber<N>, slot: Option<Record<V>>)
        ensures { self.new.array ≡ slice_set self.old.array i.entry slot }
    {
        self.array[i.number] = slot;
    }

    // Where a search for the key begins. The high bits of the spread decide, since they depend on every bit of the key. With `as`,
    // since the library's conversions from u32 to usize may fail.
    fn home(&self, key: Key) -> SlotNumber<N>
        ensures { result ≡ home_slot N key }
    {
        SlotNumber {
            number: (key.spread() as usize * N) >> 32,
        }
    }

    // Goes from the key's home to the key, or else to the first empty slot. The loop counts steps: from any home, N of them come
    // to every slot.
    pub(crate) fn probe(&self, key: Key) -> Probe<N>
        ensures { Probed N self.now.array key result }
    {
        let home = self.home(key);
        for distance in 0..N {
            let i = home.ahead(distance);
            match &self.array[i.number] {
                None => return Probe::Vacant(i),
                Some(record) if record.key == key => return Probe::Found(i),
                Some(_) => {}
            }
        }
        Probe::Exhausted
    }
}
