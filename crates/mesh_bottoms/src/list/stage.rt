ghost use Rattle.mesh_stream.specs.Meaning.{textless};
ghost use Rattle.mesh_bottoms.specs.Listing.{listed_on};
ghost use Rattle.mesh_bottoms.specs.Fixed.{ended_lawful};

use crate::list::ListStage;
use mesh_stream::event::Event;
use mesh_stream::stage::{Stage, Standing};

impl Stage for ListStage<'_> {
    type Item = Event;

    ghost meaning = { λ l t m. listed_on l.given l.records.now };

    ghost port = { λ l. textless };

    ghost lawful = { λ l. ended_lawful (listed_on l.given l.records.now).items };

    fn next(&mut self) -> Result<Event, Standing> {
        let (record, rest) = self.records.split_first().ok_or(Standing::Ended)?;
        self.records = rest;
        self.given += 1;
        Ok(record.placed_at(self.given))
    }
}
