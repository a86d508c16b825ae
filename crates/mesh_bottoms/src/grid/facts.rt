ghost use Rattle.mesh_bottoms.specs.Steps.{OfEveryGrid};

use crate::grid::Grid;

// What holds of every grid, by its type alone, however much of it is handed over. Nothing to run, only to prove.
pub fn of_every_grid(grid: &Grid)
    ensures { OfEveryGrid grid.now }
{}
