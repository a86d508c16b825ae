// The bits of the rows.
ghost use Rattle.std.specs.Prelude.{◌≡◌, ◌+◌, ◌*◌, ◌<◌, ◌≤◌, length};
ghost use Rattle.mesh_border.specs.Rows.{BitSet, Joined, Listed, WordListed, KeepsListed};

use crate::LIVE_LIMIT;
use crate::neighbours::Neighbours;

impl Neighbours {
    // Sets one bit.
    fn set(&mut self, row: u16, column: u16)
        requires { (row < 1024) × (column < 1024) }
        ensures { BitSet self.old row column self.new }
    {
        let column = usize::from(column);
        self.bits[usize::from(row)][column / 64] |= 1 << (column % 64);
    }

    // Notes that the vertices of two rows are joined.
    pub(crate) fn join(&mut self, a: u16, b: u16)
        requires { (a < 1024) × (b < 1024) }
        ensures { Joined self.old a b self.new }
    {
        self.set(a, b);
        self.set(b, a);
    }

    // Lists those of one word of a row, behind the first `count` of the list.
    fn list_word(&self, k: usize, word: u64, into: &mut [u32; LIVE_LIMIT], count: usize) -> usize
        requires inside { k < 16 }
        requires room { count ≤ k * 64 }
        requires long { length into.old ≡ 1024 }
        ensures few { result ≤ k * 64 + 64 }
        ensures long { length into.new ≡ 1024 }
        ensures kept { KeepsListed into.old count into.new result }
        ensures listed { WordListed self.now k word into.new result }
    {
        let mut count = count;
        let mut left = word;
        while left != 0 {
            let bit = left.trailing_zeros();
            left &= !(1u64 << bit);
            if let Some(vertex) = self.vertices[k * 64 + bit as usize] {
                into[count] = vertex;
                count += 1;
            }
        }
        count
    }

    // Lists the vertices that may be joined with that of a row, and answers how many they are.
    pub(crate) fn list(&self, row: u16, into: &mut [u32; LIVE_LIMIT]) -> usize
        requires row { row < 1024 }
        requires long { length into.old ≡ 1024 }
        ensures few { result ≤ 1024 }
        ensures long { length into.new ≡ 1024 }
        ensures listed { Listed self.now row into.new result }
    {
        let mut count = 0;
        for (k, word) in self.bits[usize::from(row)].iter().enumerate() {
            count = self.list_word(k, *word, into, count);
        }
        count
    }
}
