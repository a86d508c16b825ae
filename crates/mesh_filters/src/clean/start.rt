ghost use Rattle.std.specs.Prelude.{◌≡◌, None};
ghost use Rattle.mesh_stream.specs.declared.event.Event.{Event as EventOf};
ghost use Rattle.mesh_stream.specs.Meaning.{Outcome};
ghost use Rattle.mesh_rules.specs.Piling.{cleans, through};

use crate::clean::Clean;
use mesh_judge::judge::Judge;
use mesh_layer::filter::Filter;

impl Clean {
    // A clean before the first event.
    pub fn new() -> Clean
        ensures { (o : Outcome EventOf) → ⟦<Clean as Filter>⟧.rewrites result None o ≡ through 1024 cleans o }
    {
        Clean {
            judge: Judge::new(),
        }
    }
}
