ghost use Rattle.std.specs.Prelude.{◌≡◌, List, [], ◌∷◌, ◌<◌, ◌≤◌, length, take, reverse};
ghost use Rattle.mesh_edges.specs.declared.edge.Edge.{Edge as EdgeOf};
ghost use Rattle.mesh_border.specs.Finding.{Popped};

use crate::LIVE_LIMIT;
use mesh_edges::edge::Edge;
use std::marker::Model;

const NO_EDGE: Edge = Edge {
    from: 0,
    to: 0,
    place: 0,
};

// The edges that are still to be handed over, the next of them last: a list that grows and shrinks at its front.
#[derive(Drop)]
pub(crate) struct Found {
    edges: [Edge; LIVE_LIMIT],
    count: usize,
}

impl Model for Found {
    ghost Value = { List EdgeOf };

    ghost view = { λ f. reverse (take f.count f.edges) };

    ghost invariant = { λ f. (f.count ≤ 1024) × (length f.edges ≡ 1024) };
}

impl Found {
    pub(crate) fn new() -> Found
        ensures { result ≡ [] }
    {
        Found {
            edges: [NO_EDGE; LIVE_LIMIT],
            count: 0,
        }
    }

    pub(crate) fn clear(&mut self)
        ensures { self.new ≡ [] }
    {
        self.count = 0;
    }

    // One edge more in front.
    pub(crate) fn push(&mut self, edge: Edge)
        requires { length self.old < 1024 }
        ensures { self.new ≡ edge ∷ self.old }
    {
        self.edges[self.count] = edge;
        self.count += 1;
    }

    // Takes the first edge out, if there is one.
    pub(crate) fn pop(&mut self) -> Option<Edge>
        ensures { Popped self.old result self.new }
    {
        self.count = self.count.checked_sub(1)?;
        Some(self.edges[self.count])
    }
}
