ghost use Rattle.std.specs.Prelude.{◌≡◌, ◌<◌, true};
ghost use Rattle.mesh_bottoms.specs.Gridding.{grid_allowed};

// A position of the grid with these settings. Its row and column are counted from 0.
#[derive(Clone, Copy)]
pub(super) struct Position {
    pub(super) columns: u32,
    pub(super) rows: u32,
    pub(super) step: u32,
    pub(super) row: u32,
    pub(super) column: u32,
    pub(super) ghost allowed: { grid_allowed columns rows step ≡ true },
    pub(super) ghost row_within: { row < rows },
    pub(super) ghost column_within: { column < columns },
}
