ghost use Rattle.std.specs.Prelude.{◌≡◌, ℕ, ◌&&◌};
ghost use Rattle.std.specs.Result.{result_err};
ghost use Rattle.mesh_stream.specs.Ranges.{in_space, vertex_number};
ghost use Rattle.mesh_stream.specs.declared.event.Event.TheVariants.{Vertex};
ghost use Rattle.mesh_judge.specs.Windows.{refuses, end_by};
ghost use Rattle.mesh_judge.specs.Judging.{window_of, live_limit, Entered, CornerFound, CornersFound, CountChecked, Checked, TriangleCounted, Counted, TakenOut, Left, Renoted, Stands};

use super::Judge;
use crate::live::{Corners, Live};
use mesh_stream::event::Point;
use mesh_stream::fault::{Cause, LayerName};
use mesh_stream::range::is_vertex_number;
use mesh_stream::stage::Standing;
use mesh_table::key::Key;

// The most triangles that a stream may have.
const TRIANGLES: u32 = 100_000_000;

fn in_range(number: u32, at: Point) -> bool
    ensures { result ≡ (in_space at && vertex_number number) }
{
    at.is_in_space() && is_vertex_number(number)
}

// How a layer stands at an end, by the lowest-numbered live vertex, if there is one.
fn end_by<T: Copy>(layer: LayerName, left: Option<Live<T>>) -> Standing
    ensures { result ≡ end_by layer left }
{
    match left {
        None => Standing::Ended,
        Some(vertex) => Standing::faulty(layer, Cause::LeftLive, vertex.place),
    }
}

impl<T: Copy> Judge<T> {
    // How many vertices are live.
    pub fn live_count(&self) -> u32
        ensures { result ≡ (window_of self.now).live_count }
    {
        u32::try_from(self.live.len()).unwrap()
    }

    // Whether a vertex is accepted, or why not.
    fn check_vertex(&self, number: u32, at: Point) -> Result<(), Cause>
        ensures { (p : ℕ) → refuses (live_limit self.now) (window_of self.now) (Vertex p number at) ≡ result_err result }
    {
        if !in_range(number, at) {
            return Err(Cause::OutOfRange);
        }
        if number <= self.highest {
            return Err(Cause::NotRising);
        }
        if self.live.len() >= self.live.limit() {
            return Err(Cause::TooManyLive);
        }
        Ok(())
    }

    // Accepts a vertex, or says why not.
    pub fn vertex(&mut self, number: u32, vertex: Live<T>) -> Result<(), Cause>
        ensures { Entered self.old number vertex result self.new }
    {
        self.check_vertex(number, vertex.at)?;
        self.live.insert(Key::vertex(number), vertex).unwrap();
        self.highest = number;
        Ok(())
    }

    // What is kept of a vertex, if it is live.
    pub fn find(&self, number: u32) -> Option<Live<T>>
        ensures { result ≡ (window_of self.now).at number }
    {
        self.live.find(Key::vertex(number))
    }

    // What is kept of a corner, which has to be live.
    fn corner(&self, number: u32) -> Result<Live<T>, Cause>
        ensures { CornerFound ((window_of self.now).at number) result }
    {
        self.find(number).ok_or(Cause::CornerNotLive)
    }

    // What is kept of a triangle's corners, if all three are live.
    fn corners(&self, a: u32, b: u32, c: u32) -> Result<Corners<T>, Cause>
        ensures { CornersFound (window_of self.now) a b c result }
    {
        Ok(Corners {
            a: self.corner(a)?,
            b: self.corner(b)?,
            c: self.corner(c)?,
        })
    }

    // Whether there may be one triangle more.
    fn check_count(&self) -> Result<(), Cause>
        ensures { CountChecked (window_of self.now) result }
    {
        if self.triangles >= TRIANGLES {
            return Err(Cause::TooManyTriangles);
        }
        Ok(())
    }

    // Whether a triangle is accepted, or why not. It is not counted.
    pub fn check_triangle(&self, a: u32, b: u32, c: u32) -> Result<(), Cause>
        ensures { Checked self.now a b c result }
    {
        self.corners(a, b, c)?;
        self.check_count()
    }

    // Counts one triangle more, if there may be one.
    fn count_triangle(&mut self) -> Result<(), Cause>
        ensures { TriangleCounted (window_of self.old) result (window_of self.new) × (live_limit self.new ≡ live_limit self.old) }
    {
        self.check_count()?;
        self.triangles += 1;
        Ok(())
    }

    // Accepts a triangle and answers what is kept of its corners, or says why not.
    pub fn triangle(&mut self, a: u32, b: u32, c: u32) -> Result<Corners<T>, Cause>
        ensures { Counted self.old a b c result self.new }
    {
        let corners = self.corners(a, b, c)?;
        self.count_triangle()?;
        Ok(corners)
    }

    // Takes a vertex out of the table, if it is there.
    fn take_out(&mut self, vertex: u32) -> Option<Live<T>>
        ensures { TakenOut self.old vertex result self.new }
    {
        self.live.remove(Key::vertex(vertex))
    }

    // Accepts a finalization and answers what was kept of the vertex, or says why not.
    pub fn finalization(&mut self, vertex: u32) -> Result<Live<T>, Cause>
        ensures { Left self.old vertex result self.new }
    {
        self.take_out(vertex).ok_or(Cause::NotLive)
    }

    // Notes something else of a vertex, if it is live, and answers whether it is.
    pub fn set_note(&mut self, number: u32, note: T) -> bool
        ensures { Renoted self.old number note result self.new }
    {
        match self.find(number) {
            Some(vertex) => self
                .live
                .change(Key::vertex(number), Live { note, ..vertex }),
            None => false,
        }
    }

    // How it stands, under this name, over a stage all of whose events it accepted.
    pub fn stand(&self, layer: LayerName, below: Standing) -> Standing
        ensures { Stands self.now layer below result }
    {
        match below {
            Standing::Ended => end_by(layer, self.live.lowest_vertex(self.highest)),
            Standing::Waiting | Standing::Faulty(_) => below,
        }
    }
}
