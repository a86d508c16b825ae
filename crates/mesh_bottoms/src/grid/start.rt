ghost use Rattle.std.specs.Prelude.{◌≡◌};
ghost use Rattle.mesh_bottoms.specs.Gridding.{grid_allowed};
ghost use Rattle.mesh_bottoms.specs.Starting.{Made};
ghost use Rattle.mesh_bottoms.specs.contracts.grid.stage.GridStage.TheImpl.{ghosts as gridding};

use crate::grid::Grid;
use crate::grid::part::Part;
use crate::grid::position::Position;
use mesh_stream::fault::Refusal;

// The most columns and rows of a grid.
const MOST_COLUMNS: u32 = 1000;

const MOST_ROWS: u32 = 50_000;
// The highest coordinate of a vertex.
const HIGHEST: u64 = 100_000;

// Whether the settings are allowed. The products are of 64 bits, which hold them at every setting.
fn allows(columns: u32, rows: u32, step: u32) -> bool
    ensures { result ≡ grid_allowed columns rows step }
{
    let step = u64::from(step);
    (2..=MOST_COLUMNS).contains(&columns)
        && (2..=MOST_ROWS).contains(&rows)
        && step >= 1
        && u64::from(columns - 1) * step <= HIGHEST
        && u64::from(rows - 1) * step <= HIGHEST
}

impl Grid {
    // A grid before its first event; `step` is how far two neighbours in a row or a column are apart.
    pub fn new(columns: u32, rows: u32, step: u32) -> Result<Grid, Refusal>
        ensures { Made gridding.meaning gridding.port columns rows step result }
    {
        if !allows(columns, rows, step) {
            return Err(Refusal::SettingNotAllowed);
        }
        let position = Position {
            columns,
            rows,
            step,
            row: 0,
            column: 0,
        };
        Ok(Grid {
            position,
            part: Some(Part::NewVertex),
            place: 1,
        })
    }
}
