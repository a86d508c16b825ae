ghost use Rattle.std.specs.Prelude.{◌≡◌, ◌+◌, ◌%◌, ◌^◌};
ghost use Rattle.mesh_table.specs.Keys.{vertex_key, edge_key, part_spread, spread};

// The key of a record: that of a vertex is its number and 0, that of an edge its two ends.
#[derive(Clone, Copy, PartialEq, Eq, Debug)]
pub struct Key {
    pub first: u32,
    pub second: u32,
}

// 2^32 over the golden ratio: numbers in a row come out far apart.
const FACTOR: u32 = 2_654_435_769;

fn spread_part(part: u32) -> u32
    ensures { result ≡ part_spread part }
{
    part.wrapping_mul(FACTOR)
}

impl Key {
    pub fn vertex(number: u32) -> Key
        ensures key { result ≡ vertex_key number }
        ensures spread { spread result ≡ part_spread number }
    {
        Key {
            first: number,
            second: 0,
        }
    }

    // Either end may come first.
    pub fn edge(a: u32, b: u32) -> Key
        ensures key { result ≡ edge_key a b }
        ensures spread { spread result ≡ (part_spread a + part_spread b) % 2 ^ 32 }
    {
        if a < b {
            Key {
                first: a,
                second: b,
            }
        } else {
            Key {
                first: b,
                second: a,
            }
        }
    }

    // Keys that are near one another have spreads that are not. The parts count alike, so that the spread of an edge is the sum
    // of those of its ends.
    pub fn spread(self) -> u32
        ensures { result ≡ spread self }
    {
        spread_part(self.first).wrapping_add(spread_part(self.second))
    }
}
