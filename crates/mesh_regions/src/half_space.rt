ghost use Rattle.std.specs.Prelude.{◌≡◌, true};
ghost use Rattle.mesh_regions.specs.HalfSpaces.{half_space_allowed};

mod region;
mod start;

// The points with a·x + b·y + c·z ≤ d.
#[derive(Clone, Copy, PartialEq, Eq, Debug)]
pub struct HalfSpace {
    a: i32,
    b: i32,
    c: i32,
    d: i32,
    ghost allowed: { half_space_allowed a b c d ≡ true },
}
