ghost use Rattle.mesh_regions.specs.Sets.{box_points};

use crate::aligned_box::{AlignedBox, rises};
use crate::region::Region;
use mesh_stream::event::Point;

impl Region for AlignedBox {
    ghost inside = { box_points };

    fn contains(&self, at: Point) -> bool {
        rises(self.low, at) && rises(at, self.high)
    }
}
