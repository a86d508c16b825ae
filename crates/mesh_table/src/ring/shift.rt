ghost use Rattle.std.specs.Prelude.{◌≡◌, nat_lt};
ghost use Rattle.mesh_table.specs.Probing.{home_slot, steps_between, Sound, Holed, Alike, Behind};

use crate::key::Key;
use crate::number::SlotNumber;
use crate::ring::Ring;

impl<V: Copy, const N: usize> Ring<V, N> {
    // Whether the hole comes before slot i on the way from the key's home.
    fn comes_before(&self, key: Key, hole: SlotNumber<N>, i: SlotNumber<N>) -> bool
        ensures { result ≡ nat_lt (steps_between N (home_slot N key) hole.entry) (steps_between N (home_slot N key) i.entry) }
    {
        let home = self.home(key);
        home.steps_to(hole) < home.steps_to(i)
    }

    // The first slot behind the hole whose record the hole cuts off from its home, if there is one.
    fn cut_off(&self, hole: SlotNumber<N>) -> Option<SlotNumber<N>>
        requires { Holed N self.now.array hole }
        ensures { Behind N self.now.array hole.entry result }
    {
        for distance in 1..N {
            let i = hole.ahead(distance);
            let record = self.slot(i)?;
            if self.comes_before(record.key, hole, i) {
                return Some(i);
            }
        }
        None
    }

    // Moves each record that the hole cuts off into the hole; the slot that it leaves is the next hole. The last hole cuts off
    // nothing.
    pub(crate) fn close_up(&mut self, from: SlotNumber<N>)
        requires { Holed N self.old.array from }
        ensures sound { Sound N self.new.array }
        ensures alike { Alike self.old.array self.new.array }
    {
        let mut hole = from;
        while let Some(i) = self.cut_off(hole) {
            let record = self.slot(i);
            self.put(i, None);
            self.put(hole, record);
            hole = i;
        }
    }
}
