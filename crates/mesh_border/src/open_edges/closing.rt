ghost use Rattle.std.specs.Prelude.{◌≡◌, [], length, ◌≤◌};
ghost use Rattle.std.specs.List.Sorted.{IsNonDecreasing};
ghost use Rattle.mesh_edge_windows.specs.Edges.{open_at, singles, close_at};
ghost use Rattle.mesh_border.specs.OpenEdges.{edges_of, most_of, TakenOut, Among};

use crate::found::Found;
use crate::open_edges::OpenEdges;
use mesh_edge_windows::open_edge::OpenEdge;
use mesh_table::key::Key;

impl OpenEdges {
    // Closes the edge between two vertices, if it is open, and answers what was kept of it.
    fn close(&mut self, a: u32, b: u32) -> Option<OpenEdge>
        ensures { TakenOut self.old a b result self.new }
    {
        self.table.remove(Key::edge(a, b))
    }

    // Closes all open edges at a vertex, and puts those that are single in front of what was found, the one with the highest other end
    // first. All other ends are among `ends`, which rise; others among them do no harm.
    pub(crate) fn close_at(&mut self, vertex: u32, ends: &[u32], found: &mut Found)
        requires none { found.old ≡ [] }
        requires few { length ends.now ≤ 1024 }
        requires rising { IsNonDecreasing ends.now }
        requires among { Among (edges_of self.old) vertex ends.now }
        ensures found { found.new ≡ singles (open_at (edges_of self.old) vertex) }
        ensures closed { edges_of self.new ≡ close_at (edges_of self.old) vertex }
        ensures most { most_of self.new ≡ most_of self.old }
    {
        for end in ends.iter().rev() {
            if let Some(open) = self.close(vertex, *end)
                && let Some(edge) = open.single()
            {
                found.push(edge);
            }
        }
    }
}
