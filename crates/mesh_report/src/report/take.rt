ghost use Rattle.std.specs.Prelude.{◌≡◌};
ghost use Rattle.mesh_report.specs.Reporting.{Took};
ghost use Rattle.mesh_report.specs.Counting.{VertexCounted, TriangleCounted, FinalizationCounted, WidthNoted};

use crate::area::twice_area;
use crate::report::Report;
use mesh_judge::live::Live;
use mesh_stream::event::Event;
use mesh_stream::fault::Cause;

impl Report {
    fn take_vertex(&mut self, number: u32, vertex: Live<()>) -> Result<(), Cause>
        ensures { VertexCounted self.old number vertex result self.new }
    {
        self.judge.vertex(number, vertex)?;
        self.totals.vertices += 1;
        Ok(())
    }

    fn take_triangle(&mut self, a: u32, b: u32, c: u32) -> Result<(), Cause>
        ensures { TriangleCounted self.old a b c result self.new }
    {
        let corners = self.judge.triangle(a, b, c)?;
        self.totals.area += twice_area(corners.a.at, corners.b.at, corners.c.at);
        self.totals.triangles += 1;
        Ok(())
    }

    fn take_finalization(&mut self, vertex: u32) -> Result<(), Cause>
        ensures { FinalizationCounted self.old vertex result self.new }
    {
        self.judge.finalization(vertex)?;
        self.totals.finalized += 1;
        Ok(())
    }

    // Keeps the largest number of vertices live so far.
    fn note_width(&mut self)
        ensures { WidthNoted self.old self.new }
    {
        self.totals.width = self.totals.width.max(self.judge.live_count());
    }

    // Takes an event, or says why it is not accepted.
    pub(super) fn take(&mut self, event: Event) -> Result<(), Cause>
        ensures { Took self.old self.new event result }
    {
        match event {
            Event::Vertex { place, number, at } => {
                let vertex = Live {
                    place,
                    at,
                    note: (),
                };
                self.take_vertex(number, vertex)?;
            }
            Event::Triangle { a, b, c, .. } => self.take_triangle(a, b, c)?,
            Event::Finalization { vertex, .. } => self.take_finalization(vertex)?,
        }
        self.note_width();
        Ok(())
    }
}
