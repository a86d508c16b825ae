ghost use Rattle.std.specs.Prelude.{◌≡◌, None};
ghost use Rattle.mesh_stream.specs.declared.event.Event.{Event as EventOf};
ghost use Rattle.mesh_stream.specs.Meaning.{Outcome};
ghost use Rattle.mesh_rules.specs.Piling.{clips, through};

use crate::clip::Clip;
use mesh_judge::judge::Judge;
use mesh_layer::filter::Filter;
use mesh_regions::region::Region;

impl<R: Region> Clip<R> {
    // A clip before the first event.
    pub fn new(region: R) -> Clip<R>
        ensures { (o : Outcome EventOf) → ⟦<Clip<R> as Filter>⟧.rewrites result None o ≡ through 1024 (clips (R.Region.inside region)) o }
    {
        Clip {
            region,
            judge: Judge::new(),
        }
    }
}
