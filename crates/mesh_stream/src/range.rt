// The coordinates and the vertex numbers that are in range.
ghost use Rattle.std.specs.Prelude.{◌≡◌};
ghost use Rattle.mesh_stream.specs.Ranges.{coordinate, in_space, vertex_number};

use crate::event::Point;

pub fn is_coordinate(z: i32) -> bool
    ensures { result ≡ coordinate z }
{
    (-100_000..=100_000).contains(&z)
}

pub fn is_vertex_number(number: u32) -> bool
    ensures { result ≡ vertex_number number }
{
    (1..=100_000_000).contains(&number)
}

impl Point {
    // Whether each coordinate is in range.
    pub fn is_in_space(&self) -> bool
        ensures { result ≡ in_space self.now }
    {
        is_coordinate(self.x) && is_coordinate(self.y) && is_coordinate(self.z)
    }
}
