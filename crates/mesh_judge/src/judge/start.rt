ghost use Rattle.mesh_table.specs.Tables.{Empty};
ghost use Rattle.mesh_judge.specs.Judging.{Begun};

use super::{Judge, LIVE_LIMIT, SLOTS};
use crate::live::Live;
use mesh_table::table::Table;

// The table of a new judge.
fn no_vertices<T: Copy>() -> Table<Live<T>, SLOTS>
    ensures { Empty 1024 result }
{
    Table::new(LIVE_LIMIT).unwrap()
}

impl<T: Copy> Judge<T> {
    // A judge before the first event.
    pub fn new() -> Judge<T>
        ensures { Begun 1024 result }
    {
        Judge {
            live: no_vertices(),
            highest: 0,
            triangles: 0,
        }
    }
}
