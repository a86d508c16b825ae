ghost use Rattle.std.specs.Prelude.{◌≡◌, ℕ, ◌+◌, ◌≤◌, true};
ghost use Rattle.mesh_edges.specs.Bordering.{all_different, uses_of};
ghost use Rattle.mesh_edge_windows.specs.Edges.{no_edges, use_all, use_edge, newly};
ghost use Rattle.mesh_border.specs.OpenEdges.{edges_of, most_of, fits};

use crate::open_edges::{OPEN_LIMIT, OpenEdges};
use mesh_edge_windows::open_edge::OpenEdge;
use mesh_edges::edge::Edge;
use mesh_table::key::Key;
use mesh_table::table::Table;

// Whether the corners are three different vertices, so that the triangle uses edges.
fn all_different(a: u32, b: u32, c: u32) -> bool
    ensures { result ≡ all_different a b c }
{
    a != b && b != c && c != a
}

impl OpenEdges {
    #[tactic(auto, using(crate::proofs::Edging::none_open))]
    pub(crate) fn new() -> OpenEdges
        ensures none { edges_of result ≡ no_edges }
        ensures most { most_of result ≡ 4096 }
    {
        OpenEdges {
            table: Table::new(OPEN_LIMIT).unwrap(),
        }
    }

    // 1 for an edge that is not open.
    fn newly(&self, a: u32, b: u32) -> usize
        ensures { result ≡ newly (edges_of self.now) a b }
    {
        match self.table.find(Key::edge(a, b)) {
            Some(_) => 0,
            None => 1,
        }
    }

    // How many edges more a triangle would leave open.
    fn new_edges(&self, a: u32, b: u32, c: u32) -> usize
        ensures { (p : ℕ) → (use_all (edges_of self.now) (uses_of p a b c)).count ≡ (edges_of self.now).count + result }
    {
        if !all_different(a, b, c) {
            return 0;
        }
        self.newly(a, b) + self.newly(b, c) + self.newly(c, a)
    }

    // Whether a triangle leaves no more edges open than may be. Mostly there is room for three more, and none is looked up.
    pub(crate) fn has_room(&self, a: u32, b: u32, c: u32) -> bool
        ensures { (p : ℕ) → result ≡ fits self.now p a b c }
    {
        let room = self.table.limit() - self.table.len();
        room >= 3 || room >= self.new_edges(a, b, c)
    }

    // Uses an edge, for which there has to be room.
    #[tactic(auto, using(crate::proofs::Edging::inserted_edge))]
    fn use_edge(&mut self, edge: Edge)
        requires { (edges_of self.old).count + newly (edges_of self.old) edge.from edge.to ≤ most_of self.old }
        ensures used { edges_of self.new ≡ use_edge (edges_of self.old) edge }
        ensures most { most_of self.new ≡ most_of self.old }
    {
        let key = Key::edge(edge.from, edge.to);
        match self.table.find(key) {
            Some(open) => {
                self.table.change(key, open.used_again());
            }
            None => self.table.insert(key, OpenEdge::first_used(edge)).unwrap(),
        }
    }

    // Uses the edges of a triangle, for which there has to be room.
    #[tactic(auto, using(crate::proofs::Edging::second_fits, crate::proofs::Edging::third_fits))]
    pub(crate) fn use_triangle(&mut self, place: u32, a: u32, b: u32, c: u32)
        requires { fits self.old place a b c ≡ true }
        ensures used { edges_of self.new ≡ use_all (edges_of self.old) (uses_of place a b c) }
        ensures most { most_of self.new ≡ most_of self.old }
    {
        if all_different(a, b, c) {
            self.use_edge(Edge {
                from: a,
                to: b,
                place,
            });
            self.use_edge(Edge {
                from: b,
                to: c,
                place,
            });
            self.use_edge(Edge {
                from: c,
                to: a,
                place,
            });
        }
    }
}
