ghost use Rattle.std.specs.Prelude.{◌+◌, ◌≤◌, length};

use mesh_stream::event::Event;

pub mod stage;
mod start;

// A stage over lent records. The place of each event that it hands over is its position, counted from 1.
#[derive(Drop)]
pub struct ListStage<'a> {
    // those still to hand over
    records: &'a [Event],
    // how many are handed over
    given: u32,
    ghost few: { given + length records.now ≤ 1000000000 },
}
