ghost use Rattle.std.specs.Prelude.{◌≤◌, length};

pub mod facts;
pub mod inlet;
mod start;

use crate::kept::Kept;
use crate::numbers::Numbers;

// The text reader: the bytes that it took and has not read yet, and the numbers that come next.
#[derive(Drop)]
pub struct TextReader {
    kept: Kept,
    next: Numbers,
    // a flag, since feed and close of a closed reader must answer, at run time, that they are refused
    closed: bool,
    ghost within: { length kept ≤ 4096 },
}
