ghost use Rattle.std.specs.Prelude.{◌≡◌, true, ◌-ℤ◌};
ghost use Rattle.mesh_stream.specs.Ranges.{coordinate, in_space};
ghost use Rattle.mesh_report.specs.Areas.{rectangle, twice_area, Within};

use mesh_stream::event::Point;

// How far one coordinate is from another.
fn distance(from: i32, to: i32) -> i64
    requires { (coordinate from ≡ true) × (coordinate to ≡ true) }
    ensures { (result ≡ (to -ℤ from)) × Within 200000 result }
{
    i64::from(to) - i64::from(from)
}

// (xp - xa) × (yq - ya)
fn rectangle_of(a: Point, p: Point, q: Point) -> i64
    requires { (in_space a ≡ true) × (in_space p ≡ true) × (in_space q ≡ true) }
    ensures { (result ≡ rectangle a p q) × Within 40000000000 result }
{
    distance(a.x, p.x) * distance(a.y, q.y)
}

// Twice the area of a triangle as it is seen along z; negative where its corners turn to the right.
pub(crate) fn twice_area(a: Point, b: Point, c: Point) -> i64
    requires { (in_space a ≡ true) × (in_space b ≡ true) × (in_space c ≡ true) }
    ensures { (result ≡ twice_area a b c) × Within 80000000000 result }
{
    rectangle_of(a, b, c) - rectangle_of(a, c, b)
}
