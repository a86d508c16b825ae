ghost use Rattle.std.specs.Prelude.{◌≡◌, ◌-◌, ◌≤◌, ℕ, List, [], ◌++◌, length, min, take, drop};
ghost use Rattle.std.specs.List.{between};

use std::marker::Model;

// How many bytes a reader can keep.
const CAPACITY: usize = 4096;

// The bytes that a reader took and has not read yet, `bytes[start..end]`: dropping some moves `start`, and only taking more
// moves bytes. An array, since a reader's memory is fixed and lies in no heap.
#[derive(Drop)]
pub(crate) struct Kept {
    bytes: [u8; CAPACITY],
    start: usize,
    end: usize,
}

impl Model for Kept {
    ghost Value = { List ℕ };

    ghost view = { λ k. between k.start k.end k.bytes };

    ghost invariant = { λ k. (k.start ≤ k.end) × (k.end ≤ 4096) };
}

// Moves the bytes from start to end to the front of the array, so that all of the room lies behind them.
fn move_to_front(bytes: &mut [u8], start: usize, end: usize)
    requires ordered { start ≤ end }
    requires inside { end ≤ length bytes.old }
    ensures size { length bytes.new ≡ length bytes.old }
    ensures moved { take (end - start) bytes.new ≡ between start end bytes.old }
{
    if start > 0 {
        bytes.copy_within(start..end, 0);
    }
}

impl Kept {
    // None, with all of the room.
    pub(crate) fn new() -> Kept
        ensures { result ≡ [] }
    {
        Kept {
            bytes: [0; CAPACITY],
            start: 0,
            end: 0,
        }
    }

    pub(crate) fn as_slice(&self) -> &[u8]
        ensures { result.now ≡ self.now }
    {
        &self.bytes[self.start..self.end]
    }

    fn len(&self) -> usize
        ensures len { result ≡ length self.now }
        ensures bound { result ≤ 4096 }
    {
        self.end - self.start
    }

    // How many bytes more it can keep.
    pub(crate) fn room(&self) -> usize
        ensures { result ≡ 4096 - length self.now }
    {
        CAPACITY - self.len()
    }

    // Drops the first n bytes.
    pub(crate) fn consume(&mut self, n: usize)
        requires { n ≤ length self.old }
        ensures { self.new ≡ drop n self.old }
    {
        self.start += n;
    }

    // Writes a piece that there is room for behind the bytes kept.
    fn append(&mut self, piece: &[u8])
        requires { length piece.now ≤ 4096 - length self.old }
        ensures { self.new ≡ self.old ++ piece.now }
    {
        let len = self.len();
        move_to_front(&mut self.bytes, self.start, self.end);
        let end = len + piece.len();
        self.bytes[len..end].copy_from_slice(piece);
        self.start = 0;
        self.end = end;
    }

    // Takes as much of a piece as there is room for, and answers how much that is.
    pub(crate) fn take(&mut self, piece: &[u8]) -> usize
        ensures count { result ≡ min (length piece.now) (4096 - length self.old) }
        ensures kept { self.new ≡ self.old ++ take result piece.now }
    {
        let taken = piece.len().min(self.room());
        self.append(&piece[0..taken]);
        taken
    }
}
