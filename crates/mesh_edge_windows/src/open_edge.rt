ghost use Rattle.std.specs.Prelude.{◌≡◌};
ghost use Rattle.mesh_edge_windows.specs.Uses.{used_again, first_used, single};

use mesh_edges::edge::Edge;

// How often an open edge was used so far.
#[derive(Clone, Copy, PartialEq, Eq, Debug)]
pub enum Uses {
    Once,
    More,
}

// What is kept of an open edge: its first use, and how often it was used.
#[derive(Clone, Copy, PartialEq, Eq, Debug)]
pub struct OpenEdge {
    pub first: Edge,
    pub uses: Uses,
}

impl OpenEdge {
    // An edge at its first use.
    pub fn first_used(edge: Edge) -> OpenEdge
        ensures { result ≡ first_used edge }
    {
        OpenEdge {
            first: edge,
            uses: Uses::Once,
        }
    }

    // The same edge, used once more.
    pub fn used_again(self) -> OpenEdge
        ensures { result ≡ used_again self }
    {
        OpenEdge {
            uses: Uses::More,
            ..self
        }
    }

    // Its only use, if there was just one.
    pub fn single(self) -> Option<Edge>
        ensures { result ≡ single self }
    {
        match self.uses {
            Uses::Once => Some(self.first),
            Uses::More => None,
        }
    }
}
