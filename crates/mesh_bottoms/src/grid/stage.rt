ghost use Rattle.mesh_stream.specs.declared.stage.Standing.TheVariants.{Ended};
ghost use Rattle.mesh_stream.specs.Meaning.{outcome, textless};
ghost use Rattle.mesh_bottoms.specs.Fixed.{ended_lawful};
ghost use Rattle.mesh_bottoms.specs.Steps.{events_from};

use crate::grid::Grid;
use mesh_stream::event::Event;
use mesh_stream::stage::{Stage, Standing};

impl Stage for Grid {
    type Item = Event;

    ghost meaning = { λ g t m. outcome (events_from g) Ended };

    ghost port = { λ g. textless };

    ghost lawful = { λ g. ended_lawful (events_from g) };

    // inlined, so that the position stays in registers where a caller draws event after event
    #[inline(always)]
    fn next(&mut self) -> Result<Event, Standing> {
        let part = self.part.ok_or(Standing::Ended)?;
        let event = self.position.event(part, self.place);
        self.advance(part);
        Ok(event)
    }
}
