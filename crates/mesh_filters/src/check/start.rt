ghost use Rattle.std.specs.Prelude.{◌≡◌, None};
ghost use Rattle.mesh_stream.specs.declared.event.Event.{Event as EventOf};
ghost use Rattle.mesh_stream.specs.Meaning.{Outcome};
ghost use Rattle.mesh_rules.specs.Piling.{checks, through};

use crate::check::Check;
use mesh_judge::judge::Judge;
use mesh_layer::filter::Filter;

impl Check {
    // A check before the first event.
    pub fn new() -> Check
        ensures { (o : Outcome EventOf) → ⟦<Check as Filter>⟧.rewrites result None o ≡ through 1024 checks o }
    {
        Check {
            judge: Judge::new(),
        }
    }
}
