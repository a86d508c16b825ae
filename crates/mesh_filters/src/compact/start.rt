ghost use Rattle.std.specs.Prelude.{◌≡◌};
ghost use Rattle.mesh_stream.specs.declared.event.Event.{Event as EventOf};
ghost use Rattle.mesh_stream.specs.Meaning.{Outcome};
ghost use Rattle.mesh_rules.specs.Piling.{compacts, through};
ghost use Rattle.mesh_filters.specs.Compacting.{nothing};

use crate::compact::Compact;
use mesh_judge::judge::Judge;
use mesh_layer::filter::Filter;

impl Compact {
    // A compact before the first event.
    pub fn new() -> Compact
        ensures { (o : Outcome EventOf) → ⟦<Compact as Filter>⟧.rewrites result nothing o ≡ through 1024 compacts o }
    {
        Compact {
            judge: Judge::new(),
            given: 0,
        }
    }
}
