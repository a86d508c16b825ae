ghost use Rattle.std.specs.Prelude.{◌≡◌, true};
ghost use Rattle.mesh_regions.specs.Boxes.{box_allowed, rises};

use mesh_stream::event::Point;

mod region;
mod start;

// The points between two corners on each axis, the corners included.
#[derive(Clone, Copy, PartialEq, Eq, Debug)]
pub struct AlignedBox {
    low: Point,
    high: Point,
    ghost allowed: { box_allowed low high ≡ true },
}

// Whether one point is at most the other on each axis.
fn rises(low: Point, high: Point) -> bool
    ensures { result ≡ rises low high }
{
    let x = low.x <= high.x;
    let y = low.y <= high.y;
    let z = low.z <= high.z;
    x && y && z
}
