ghost use Rattle.std.specs.Prelude.{◌≡◌, ℕ, min, List, length, take};
ghost use Rattle.mesh_stream.specs.Meaning.{Mark, textless};
ghost use Rattle.mesh_bottoms.specs.Listing.{listed};
ghost use Rattle.mesh_bottoms.specs.contracts.list.stage.ListStageStage.TheImpl.{ghosts as listing};

use crate::list::ListStage;
use mesh_stream::event::Event;

// The most records that a list stage hands over.
const MOST_RECORDS: usize = 1_000_000_000;

// Those of the records that a list stage hands over.
fn front(records: &[Event]) -> &[Event]
    ensures { result.now ≡ take (min 1000000000 (length records.now)) records.now }
{
    let most = MOST_RECORDS.min(records.len());
    &records[..most]
}

impl<'a> ListStage<'a> {
    // Starts before the first record.
    #[tactic(auto, using(std::proofs::lemmas::List::take_min))]
    pub fn new(records: &'a [Event]) -> ListStage<'a>
        ensures means { (t : List ℕ) (m : Mark) → listing.meaning result t m ≡ listed records.now }
        ensures port { listing.port result ≡ textless }
    {
        ListStage {
            records: front(records),
            given: 0,
        }
    }
}
