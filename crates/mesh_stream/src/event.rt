ghost use Rattle.std.specs.Prelude.{◌≡◌};
ghost use Rattle.mesh_stream.specs.Events.{place_of, placed};

// A point of space; each coordinate is a whole number of tenths of a millimetre.
#[derive(Clone, Copy, PartialEq, Eq, Debug)]
pub struct Point {
    pub x: i32,
    pub y: i32,
    pub z: i32,
}

// One event of a mesh stream. Its place says where it came from: a line, a record or a position, counted from 1. Each variant has
// it, so that an event is one literal, and a match takes what it needs.
#[derive(Clone, Copy, PartialEq, Eq, Debug)]
pub enum Event {
    // introduces a vertex
    Vertex { place: u32, number: u32, at: Point },
    // names its three corners in order
    Triangle { place: u32, a: u32, b: u32, c: u32 },
    // says that the vertex will not be named again
    Finalization { place: u32, vertex: u32 },
}

impl Event {
    // Where the event came from.
    pub fn place(&self) -> u32
        ensures { result ≡ place_of self.now }
    {
        match self {
            Event::Vertex { place, .. }
            | Event::Triangle { place, .. }
            | Event::Finalization { place, .. } => *place,
        }
    }

    // The same event at another place.
    pub fn placed_at(self, place: u32) -> Event
        ensures { result ≡ placed place self }
    {
        match self {
            Event::Vertex { number, at, .. } => Event::Vertex { place, number, at },
            Event::Triangle { a, b, c, .. } => Event::Triangle { place, a, b, c },
            Event::Finalization { vertex, .. } => Event::Finalization { place, vertex },
        }
    }
}
