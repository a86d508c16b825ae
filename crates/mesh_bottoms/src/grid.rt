ghost use Rattle.std.specs.Prelude.{◌+◌, ◌*◌, ◌<◌, ◌≤◌};
ghost use Rattle.mesh_bottoms.specs.Walking.{parts_left, number_of};

use crate::grid::part::Part;
use crate::grid::position::Position;

pub mod facts;
mod part;
mod position;
pub mod stage;
mod start;
mod walk;

// A flat mesh over the positions of a grid, row by row. It keeps nothing but the position, and what comes next there.
#[derive(Drop)]
pub struct Grid {
    position: Position,
    // which event of the position comes next; nothing once everything is handed over
    part: Option<Part>,
    // of the next event
    place: u32,
    // in the first row and the first column only the vertex comes
    ghost inner: { parts_left part < 7 → (1 ≤ position.row) × (1 ≤ position.column) },
    // no position has more than 7 events
    ghost seven: { place + parts_left part ≤ 7 * number_of position + 1 },
}
