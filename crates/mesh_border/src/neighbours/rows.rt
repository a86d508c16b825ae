// Rows, and the vertices that have them.
ghost use Rattle.std.specs.Prelude.{◌≡◌, ℕ, ◌<◌, true, length, is_some, None, slice_index_or};
ghost use Rattle.mesh_border.specs.Rows.{vertex_of, free_rows, next_row, Entered, LeftRow};

use crate::LIVE_LIMIT;
use crate::neighbours::{Neighbours, WORDS};

// All rows, each free.
fn all_rows() -> [u16; LIVE_LIMIT]
    ensures long { length result ≡ 1024 }
    ensures rows { (k : ℕ) → k < 1024 → slice_index_or result k 0 ≡ k }
{
    let mut rows = [0; LIVE_LIMIT];
    for row in 0..LIVE_LIMIT as u16 {
        rows[usize::from(row)] = row;
    }
    rows
}

impl Neighbours {
    pub(crate) fn new() -> Neighbours
        ensures free { free_rows result ≡ 1024 }
        ensures bare { (r : ℕ) → vertex_of result r ≡ None }
    {
        Neighbours {
            bits: [[0; WORDS]; LIVE_LIMIT],
            vertices: [None; LIVE_LIMIT],
            free: all_rows(),
            free_count: LIVE_LIMIT,
        }
    }

    // The row that the next vertex will have, if one is free.
    pub(crate) fn next_row(&self) -> u16
        ensures { result ≡ next_row self.now }
    {
        match self.free_count.checked_sub(1) {
            Some(last) => self.free[last],
            None => 0,
        }
    }

    // Gives a vertex the next row; as yet it is joined with no other.
    pub(crate) fn enter(&mut self, vertex: u32)
        requires { 0 < free_rows self.old }
        ensures { Entered self.old vertex self.new }
    {
        self.free_count -= 1;
        let row = usize::from(self.free[self.free_count]);
        self.bits[row] = [0; WORDS];
        self.vertices[row] = Some(vertex);
    }

    // Frees the row of a vertex.
    pub(crate) fn leave(&mut self, row: u16)
        requires taken { is_some (vertex_of self.old row) ≡ true }
        requires room { free_rows self.old < 1024 }
        ensures { LeftRow self.old row self.new }
    {
        self.vertices[usize::from(row)] = None;
        self.free[self.free_count] = row;
        self.free_count += 1;
    }
}
