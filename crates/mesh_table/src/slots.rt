ghost use Rattle.std.specs.Prelude.{◌≡◌, List, ◌+◌, ◌^◌, ◌<◌, length, is_some, if◌then◌else◌, Some, None};
ghost use Rattle.mesh_table.specs.Probing.{Slot, slot_at, lookup, size, value_in, Sought, EndsAt, Sound, Becomes};

use crate::key::Key;
use crate::number::SlotNumber;
use crate::ring::{Probe, Record, Ring};
use std::marker::Model;

mod lowest;

// The slots of a table: no key stands twice, and no empty slot between a record and its home.
#[derive(Drop)]
pub(crate) struct Slots<V, const N: usize> {
    ring: Ring<V, N>,
}

impl<V, const N: usize> Model for Slots<V, N> {
    ghost Value = { List (Slot V) };

    ghost view = { λ s. s.ring.array };

    ghost invariant = { λ s. Sound N s.ring.array };
}

impl<V: Copy, const N: usize> Slots<V, N> {
    pub(crate) fn empty() -> Slots<V, N>
        requires has_slots { 0 < N }
        requires few_slots { N < 2 ^ 32 }
        ensures long { length result ≡ N }
        ensures sound { Sound N result }
        ensures counted { size result ≡ 0 }
        ensures bare { (q : Key) → lookup result q ≡ None }
    {
        Slots {
            ring: Ring::empty(),
        }
    }

    // A search: where it does not find the key, no slot has it.
    pub(crate) fn seek(&self, key: Key) -> Probe<N>
        ensures { Sought N self.now key result }
    {
        self.ring.probe(key)
    }

    // The value in a slot, if it has one.
    pub(crate) fn value(&self, i: SlotNumber<N>) -> Option<V>
        ensures { result ≡ value_in (slot_at self.now i.entry) }
    {
        Some(self.ring.slot(i)?.value)
    }

    // Puts a value at a key, into the slot that a search for the key came to.
    pub(crate) fn set(&mut self, i: SlotNumber<N>, key: Key, value: V)
        requires { EndsAt N self.old key i }
        ensures long { length self.new ≡ N }
        ensures sound { Sound N self.new }
        ensures becomes { Becomes self.old self.new key (Some value) }
        ensures counted { size self.new + (if is_some (lookup self.old key) then 1 else 0) ≡ size self.old + 1 }
    {
        self.ring.put(i, Some(Record { key, value }));
    }

    // Takes out the record at a key, if there is one.
    pub(crate) fn remove(&mut self, key: Key) -> Option<V>
        ensures value { result ≡ lookup self.old key }
        ensures long { length self.new ≡ N }
        ensures sound { Sound N self.new }
        ensures becomes { Becomes self.old self.new key None }
        ensures counted { size self.new + (if is_some result then 1 else 0) ≡ size self.old }
    {
        match self.seek(key) {
            Probe::Found(i) => {
                let value = self.value(i);
                self.ring.put(i, None);
                self.ring.close_up(i);
                value
            }
            Probe::Vacant(_) | Probe::Exhausted => None,
        }
    }
}
