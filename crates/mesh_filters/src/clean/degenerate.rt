ghost use Rattle.std.specs.Prelude.{◌≡◌, true, ◌-ℤ◌, ◌*ℤ◌};
ghost use Rattle.mesh_stream.specs.Ranges.{coordinate, in_space};
ghost use Rattle.mesh_rules.specs.Degenerate.{cross, degenerate, from_to, is_zero, is_zero_vector};
ghost use Rattle.mesh_filters.specs.Near.{Near};
ghost use Rattle.mesh_filters.specs.Vectors.{vector_of};

use crate::clean::vector::Vector;
use mesh_stream::event::Point;

// How far one coordinate is from another.
fn distance(from: i32, to: i32) -> i64
    requires { (coordinate from ≡ true) × (coordinate to ≡ true) }
    ensures { (result ≡ (to -ℤ from)) × Near result }
{
    i64::from(to) - i64::from(from)
}

// Whether p × q - r × s is 0.
fn same_products(p: i64, q: i64, r: i64, s: i64) -> bool
    requires { Near p × Near q × Near r × Near s }
    ensures { result ≡ is_zero ((p *ℤ q) -ℤ (r *ℤ s)) }
{
    p * q == r * s
}

impl Vector {
    fn from_to(a: Point, b: Point) -> Vector
        requires { (in_space a ≡ true) × (in_space b ≡ true) }
        ensures { vector_of result ≡ from_to a b }
    {
        Vector {
            x: distance(a.x, b.x),
            y: distance(a.y, b.y),
            z: distance(a.z, b.z),
        }
    }

    // Whether the cross product of the two is the zero vector.
    fn is_parallel_to(self, v: Vector) -> bool
        ensures { result ≡ is_zero_vector (cross (vector_of self) (vector_of v)) }
    {
        same_products(self.y, v.z, self.z, v.y)
            && same_products(self.z, v.x, self.x, v.z)
            && same_products(self.x, v.y, self.y, v.x)
    }
}

// Whether a triangle with these corners is degenerate.
pub(super) fn is_degenerate(a: Point, b: Point, c: Point) -> bool
    requires { (in_space a ≡ true) × (in_space b ≡ true) × (in_space c ≡ true) }
    ensures { result ≡ degenerate a b c }
{
    Vector::from_to(a, b).is_parallel_to(Vector::from_to(a, c))
}
