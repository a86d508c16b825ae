ghost use Rattle.std.specs.Prelude.{◌≡◌, ◌+◌, ◌-◌, ◌≤◌, ◌∷◌, Some};
ghost use Rattle.mesh_bottoms.specs.Steps.{event_of, events_from};
ghost use Rattle.mesh_bottoms.specs.Walking.{Inner, number_of, point_of, last_column, last_row, PartFollows, PositionPassed};

use crate::grid::Grid;
use crate::grid::part::Part;
use crate::grid::position::Position;
use mesh_stream::event::{Event, Point};

impl Position {
    // Where its vertex stands.
    fn point(&self) -> Point
        ensures { result ≡ point_of self.now }
    {
        Point {
            x: (self.column * self.step).cast_signed(),
            y: (self.row * self.step).cast_signed(),
            z: 0,
        }
    }

    // The number of its vertex.
    fn number(&self) -> u32
        ensures { result ≡ number_of self.now }
    {
        self.row * self.columns + self.column + 1
    }

    // The number of the vertex in the same column of the row before.
    fn above(&self) -> u32
        requires { 1 ≤ self.now.row }
        ensures number { result ≡ number_of self.now - self.now.columns }
        ensures low { 1 + self.now.column ≤ result }
    {
        self.number() - self.columns
    }

    fn in_last_column(&self) -> bool
        ensures { result ≡ last_column self.now }
    {
        self.column == self.columns - 1
    }

    fn in_last_row(&self) -> bool
        ensures { result ≡ last_row self.now }
    {
        self.row == self.rows - 1
    }

    // The event of a part of the position.
    pub(super) fn event(&self, part: Part, place: u32) -> Event
        requires { Inner self.now part }
        ensures { result ≡ event_of self.now part place }
    {
        let triangle = |a, b, c| Event::Triangle { place, a, b, c };
        let finalization = |vertex| Event::Finalization { place, vertex };
        let n = self.number();
        match part {
            Part::NewVertex => Event::Vertex {
                place,
                number: n,
                at: self.point(),
            },
            Part::FirstTriangle => triangle(self.above() - 1, self.above(), n),
            Part::SecondTriangle => triangle(self.above() - 1, n, n - 1),
            Part::FinalizationOfP => finalization(self.above() - 1),
            Part::FinalizationOfQ => finalization(self.above()),
            Part::FinalizationOfM => finalization(n - 1),
            Part::FinalizationOfN => finalization(n),
        }
    }

    // The part that comes next at this position, if one does.
    fn part_after(&self, part: Part) -> Option<Part>
        requires { Inner self.now part }
        ensures { PartFollows self.now part result }
    {
        let last_column = self.in_last_column();
        let last_row = self.in_last_row();
        match part {
            Part::NewVertex if self.row >= 1 && self.column >= 1 => Some(Part::FirstTriangle),
            Part::FirstTriangle => Some(Part::SecondTriangle),
            Part::SecondTriangle => Some(Part::FinalizationOfP),
            Part::FinalizationOfP if last_column => Some(Part::FinalizationOfQ),
            Part::FinalizationOfP | Part::FinalizationOfQ if last_row => Some(
                Part::FinalizationOfM,
            ),
            Part::FinalizationOfM if last_column && last_row => Some(Part::FinalizationOfN),
            _ => None,
        }
    }

    // Goes to the position that comes next, and answers its first part. The last position stays.
    fn pass(&mut self) -> Option<Part>
        ensures { PositionPassed self.old result self.new }
    {
        if !self.in_last_column() {
            self.column += 1;
        } else if !self.in_last_row() {
            self.row += 1;
            self.column = 0;
        } else {
            return None;
        }
        Some(Part::NewVertex)
    }
}

impl Grid {
    // Goes on behind the event of this part, which comes next.
    #[tactic(auto, using(crate::proofs::Bounds::number_bound))]
    pub(super) fn advance(&mut self, part: Part)
        requires { self.old.part ≡ Some part }
        ensures { events_from self.old ≡ event_of self.old.position part self.old.place ∷ events_from self.new }
    {
        let next = self.position.part_after(part);
        self.part = match next {
            Some(_) => next,
            None => self.position.pass(),
        };
        self.place += 1;
    }
}
