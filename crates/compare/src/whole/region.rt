// The regions, as sets of points.
use crate::case::Region;
use mesh_pipe::Point;

fn is_between(low: Point, at: Point, high: Point) -> bool {
    (low.x..=high.x).contains(&at.x)
        && (low.y..=high.y).contains(&at.y)
        && (low.z..=high.z).contains(&at.z)
}

fn is_in_range(value: i32, largest: i32) -> bool {
    value <= largest
        && value
            .checked_neg()
            .is_some_and(|negated| negated <= largest)
}

fn is_in_space(at: Point) -> bool {
    [at.x, at.y, at.z]
        .iter()
        .all(|value| is_in_range(*value, 100_000))
}

// Whether a region may be made with its setting.
pub fn is_allowed(region: Region) -> bool {
    match region {
        Region::Box { low, high } => is_in_space(low)
            && is_in_space(high)
            && is_between(low, low, high),
        Region::HalfSpace { a, b, c, d } => {
            [a, b, c].iter().all(|factor| is_in_range(*factor, 1000)) && is_in_range(d, 300_000_000)
        }
    }
}

pub fn is_inside(region: Region, at: Point) -> bool {
    match region {
        Region::Box { low, high } => is_between(low, at, high),
        Region::HalfSpace { a, b, c, d } => {
            let [x, y, z] = [at.x, at.y, at.z].map(i64::from);
            let [a, b, c] = [a, b, c].map(i64::from);
            let sum = a
                .wrapping_mul(x)
                .wrapping_add(b.wrapping_mul(y))
                .wrapping_add(c.wrapping_mul(z));
            sum <= i64::from(d)
        }
    }
}
