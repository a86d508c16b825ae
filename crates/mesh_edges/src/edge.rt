ghost use Rattle.std.specs.Prelude.{Some as Known};
ghost use Rattle.mesh_edges.specs.ShownEdges.{edge_text};

use std::fmt;

// A use of an edge, in the direction of the triangle that uses it, with that triangle's place.
#[derive(Clone, Copy, PartialEq, Eq, Debug)]
pub struct Edge {
    pub from: u32,
    pub to: u32,
    pub place: u32,
}

impl fmt::Display for Edge {
    ghost output = { λ e. Known (edge_text e) };

    fn fmt<W: fmt::Write>(&self, f: &mut fmt::Formatter<W>) -> fmt::Result {
        let Edge { from, to, place } = *self;
        write!(f, "e {from} {to} @{place}")
    }
}
