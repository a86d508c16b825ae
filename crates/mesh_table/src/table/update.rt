ghost use Rattle.mesh_table.specs.Tables.{Inserted, Changed, Removed};

use crate::key::Key;
use crate::ring::Probe;
use crate::table::{InsertError, Table};

impl<V: Copy, const N: usize> Table<V, N> {
    // Takes a record in, unless there is one at its key, or the table is at its limit.
    pub fn insert(&mut self, key: Key, value: V) -> Result<(), InsertError>
        ensures { Inserted self.old self.new key value result }
    {
        match self.slots.seek(key) {
            Probe::Found(_) => Err(InsertError::KeyPresent),
            Probe::Vacant(i) if self.count < self.limit => {
                self.slots.set(i, key, value);
                self.count += 1;
                Ok(())
            }
            Probe::Vacant(_) | Probe::Exhausted => Err(InsertError::AtLimit),
        }
    }

    // Puts another value at a key that has one; says whether it has.
    pub fn change(&mut self, key: Key, value: V) -> bool
        ensures { Changed self.old self.new key value result }
    {
        match self.slots.seek(key) {
            Probe::Found(i) => {
                self.slots.set(i, key, value);
                true
            }
            Probe::Vacant(_) | Probe::Exhausted => false,
        }
    }

    // Takes out the record at a key, if there is one.
    pub fn remove(&mut self, key: Key) -> Option<V>
        ensures { Removed self.old self.new key result }
    {
        let value = self.slots.remove(key)?;
        self.count -= 1;
        Some(value)
    }
}
