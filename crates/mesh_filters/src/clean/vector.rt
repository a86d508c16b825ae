ghost use Rattle.mesh_filters.specs.Near.{Near};

// From one point of space to another. Products of two such coordinates fit 64 bits.
#[derive(Clone, Copy)]
pub(super) struct Vector {
    pub(super) x: i64,
    pub(super) y: i64,
    pub(super) z: i64,
    pub(super) ghost near: { Near x × Near y × Near z },
}
