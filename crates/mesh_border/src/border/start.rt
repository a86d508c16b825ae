ghost use Rattle.std.specs.Prelude.{◌≡◌, ℕ};
ghost use Rattle.mesh_stream.specs.declared.event.Event.{Event as EventOf};
ghost use Rattle.mesh_stream.specs.Meaning.{Outcome};
ghost use Rattle.mesh_edges.specs.Bordering.{bordered};
ghost use Rattle.mesh_border.specs.declared.border.Rest.TheVariants.{Nothing};

use crate::LIVE_LIMIT;
use crate::border::Border;
use crate::found::Found;
use crate::neighbours::Neighbours;
use crate::open_edges::OpenEdges;
use mesh_judge::judge::Judge;
use mesh_layer::filter::Filter;

impl Border {
    // A border list before the first event.
    pub fn new() -> Border
        ensures { (o : Outcome EventOf) → ⟦<Border as Filter>⟧.rewrites result Nothing o ≡ bordered 1024 4096 o }
    {
        let judge = Judge::new();
        let edges = OpenEdges::new();
        let neighbours = Neighbours::new();
        Border {
            judge,
            edges,
            neighbours,
            ends: [0; LIVE_LIMIT],
            found: Found::new(),
        }
    }
}
