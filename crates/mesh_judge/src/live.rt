use mesh_stream::event::Point;

// A live vertex: where it was introduced, where it stands, and what its keeper notes of it.
#[derive(Clone, Copy, PartialEq, Debug)]
pub struct Live<T> {
    pub place: u32,
    pub at: Point,
    pub note: T,
}

// The corners of an accepted triangle, in its order.
#[derive(Clone, Copy, PartialEq, Debug)]
pub struct Corners<T> {
    pub a: Live<T>,
    pub b: Live<T>,
    pub c: Live<T>,
}
