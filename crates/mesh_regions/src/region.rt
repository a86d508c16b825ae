ghost use Rattle.std.specs.Prelude.{◌≡◌, Bool};
ghost use Rattle.mesh_stream.specs.declared.event.Point.{Point as PointOf};

use mesh_stream::event::Point;

// A region says of every point whether it lies inside; what it means is that set of points.
pub trait Region {
    ghost inside: { Self → PointOf → Bool };

    fn contains(&self, at: Point) -> bool
        ensures { result ≡ inside self.now at };
}
