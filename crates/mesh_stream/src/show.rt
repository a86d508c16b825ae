// How events, faults, standings and refusals are shown.
ghost use Rattle.std.specs.Prelude.{Some as Known};
ghost use Rattle.mesh_stream.specs.Shown.{event_text, fault_text, refusal_text, standing_text};

use crate::event::{Event, Point};
use crate::fault::{Fault, Refusal};
use crate::stage::Standing;
use std::error::Error;
use std::fmt;

impl fmt::Display for Event {
    ghost output = { λ e. Known (event_text e) };

    fn fmt<W: fmt::Write>(&self, f: &mut fmt::Formatter<W>) -> fmt::Result {
        match *self {
            Event::Vertex {
                place,
                number,
                at: Point { x, y, z },
            } => write!(f, "v {number} {x} {y} {z} @{place}"),
            Event::Triangle { place, a, b, c } => write!(f, "f {a} {b} {c} @{place}"),
            Event::Finalization { place, vertex } => write!(f, "x {vertex} @{place}"),
        }
    }
}

impl fmt::Display for Fault {
    ghost output = { λ e. Known (fault_text e) };

    fn fmt<W: fmt::Write>(&self, f: &mut fmt::Formatter<W>) -> fmt::Result {
        let layer = self.layer.word();
        let cause = self.cause.number();
        let place = self.place;
        write!(f, "fault {layer} {cause} {place}")
    }
}

impl fmt::Display for Standing {
    ghost output = { λ s. Known (standing_text s) };

    fn fmt<W: fmt::Write>(&self, f: &mut fmt::Formatter<W>) -> fmt::Result {
        match self {
            Standing::Waiting => write!(f, "waiting"),
            Standing::Ended => write!(f, "ended"),
            Standing::Faulty(fault) => write!(f, "{fault}"),
        }
    }
}

impl fmt::Display for Refusal {
    ghost output = { λ r. Known (refusal_text r) };

    fn fmt<W: fmt::Write>(&self, f: &mut fmt::Formatter<W>) -> fmt::Result {
        let number = self.number();
        write!(f, "refused {number}")
    }
}

impl Error for Refusal {}
