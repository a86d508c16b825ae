ghost use Rattle.std.specs.Prelude.{◌≡◌, None};
ghost use Rattle.mesh_stream.specs.declared.event.Event.{Event as EventOf};
ghost use Rattle.mesh_stream.specs.Meaning.{Outcome};
ghost use Rattle.mesh_rules.specs.Piling.{renumbers, through};

use crate::renumber::Renumber;
use mesh_judge::judge::Judge;
use mesh_layer::filter::Filter;

impl Renumber {
    // A renumber before the first event.
    pub fn new() -> Renumber
        ensures { (o : Outcome EventOf) → ⟦<Renumber as Filter>⟧.rewrites result None o ≡ through 1024 renumbers o }
    {
        Renumber {
            judge: Judge::new(),
            given: 0,
        }
    }
}
