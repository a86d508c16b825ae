// What a report counts.
#[derive(Clone, Copy, PartialEq, Eq, Debug, Default)]
pub struct Totals {
    pub vertices: u32,
    pub triangles: u32,
    pub finalized: u32,
    pub width: u32,
    pub area: i64,
}
