ghost use Rattle.std.specs.Prelude.{◌≡◌, true, pos, negsuc, ◌*ℤ◌, ◌≤ℤ◌};
ghost use Rattle.mesh_regions.specs.HalfSpaces.{factor_allowed, sum_at};
ghost use Rattle.mesh_regions.specs.Sets.{half_space_points};

use crate::half_space::HalfSpace;
use crate::region::Region;
use mesh_stream::event::Point;

// The product is of 64 bits, which hold it and the sum of three of them at every point.
fn product(factor: i32, coordinate: i32) -> i64
    requires { factor_allowed factor ≡ true }
    ensures value { result ≡ factor *ℤ coordinate }
    ensures above { negsuc 2147483647999 ≤ℤ result }
    ensures below { result ≤ℤ pos 2147483648000 }
{
    i64::from(factor) * i64::from(coordinate)
}

impl HalfSpace {
    // a·x + b·y + c·z
    fn sum_at(&self, at: Point) -> i64
        ensures { result ≡ sum_at self.now.a self.now.b self.now.c at }
    {
        product(self.a, at.x) + product(self.b, at.y) + product(self.c, at.z)
    }
}

impl Region for HalfSpace {
    ghost inside = { half_space_points };

    fn contains(&self, at: Point) -> bool {
        self.sum_at(at) <= i64::from(self.d)
    }
}
