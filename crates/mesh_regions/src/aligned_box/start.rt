ghost use Rattle.std.specs.Prelude.{◌≡◌};
ghost use Rattle.mesh_regions.specs.Boxes.{box_allowed, in_box};
ghost use Rattle.mesh_regions.specs.Making.{Made};
ghost use Rattle.mesh_regions.specs.contracts.aligned_box.region.AlignedBoxRegion.TheImpl.{ghosts as boxing};

use crate::aligned_box::{AlignedBox, rises};
use mesh_stream::event::Point;
use mesh_stream::fault::Refusal;

// Whether the corners are allowed.
fn allows(low: Point, high: Point) -> bool
    ensures { result ≡ box_allowed low high }
{
    low.is_in_space() && high.is_in_space() && rises(low, high)
}

impl AlignedBox {
    // The box from its low to its high corner.
    pub fn new(low: Point, high: Point) -> Result<AlignedBox, Refusal>
        ensures { Made boxing.inside (box_allowed low high) (in_box low high) result }
    {
        if !allows(low, high) {
            return Err(Refusal::SettingNotAllowed);
        }
        Ok(AlignedBox { low, high })
    }
}
