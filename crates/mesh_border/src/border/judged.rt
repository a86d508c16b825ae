ghost use Rattle.mesh_stream.specs.declared.event.Event.TheVariants.{Vertex, Triangle, Finalization};
ghost use Rattle.mesh_border.specs.declared.border.Rest.TheVariants.{Nothing, Found as WhatWasFound};
ghost use Rattle.std.specs.Prelude.{ℕ};
ghost use Rattle.mesh_border.specs.Making.{Worked};

use crate::border::{Border, Rest};
use mesh_judge::live::Live;
use mesh_stream::event::{Event, Point};
use mesh_stream::fault::Cause;

impl Border {
    // Accepts a vertex, and gives it a row, or says why not.
    fn vertex(&mut self, place: u32, number: u32, at: Point) -> Result<Rest, Cause>
        ensures { Worked self.old (Vertex place number at) result self.new }
    {
        let note = self.neighbours.next_row();
        self.judge.vertex(number, Live { place, at, note })?;
        self.neighbours.enter(number);
        Ok(Rest::Nothing)
    }

    // Accepts a triangle, and uses its edges, or says why not. Whether there is room for them is looked up first, so that a triangle
    // for which there is none is not counted; but the judge's cause comes before that.
    fn triangle(&mut self, place: u32, a: u32, b: u32, c: u32) -> Result<Rest, Cause>
        ensures { Worked self.old (Triangle place a b c) result self.new }
    {
        if !self.edges.has_room(a, b, c) {
            self.judge.check_triangle(a, b, c)?;
            return Err(Cause::TooManyOpenEdges);
        }
        let corners = self.judge.triangle(a, b, c)?;
        let (a_row, b_row, c_row) = (corners.a.note, corners.b.note, corners.c.note);
        self.neighbours.join(a_row, b_row);
        self.neighbours.join(b_row, c_row);
        self.neighbours.join(c_row, a_row);
        self.edges.use_triangle(place, a, b, c);
        Ok(Rest::Nothing)
    }

    // Accepts a finalization, and closes the open edges at its vertex, the one with the highest other end first, so that the one with
    // the lowest is found last and handed over first.
    fn finalization(&mut self, vertex: u32) -> Result<Rest, Cause>
        ensures { (place : ℕ) → Worked self.old (Finalization place vertex) result self.new }
    {
        let row = self.judge.finalization(vertex)?.note;
        let count = self.neighbours.list(row, &mut self.ends);
        self.neighbours.leave(row);
        let ends = &mut self.ends[0..count];
        ends.sort_unstable();
        self.found.clear();
        self.edges.close_at(vertex, ends, &mut self.found);
        Ok(Rest::Found)
    }

    // Accepts an event, or says why not.
    pub(super) fn judged(&mut self, item: Event) -> Result<Rest, Cause>
        ensures { Worked self.old item result self.new }
    {
        match item {
            Event::Vertex { place, number, at } => self.vertex(place, number, at),
            Event::Triangle { place, a, b, c } => self.triangle(place, a, b, c),
            Event::Finalization { vertex, .. } => self.finalization(vertex),
        }
    }
}
