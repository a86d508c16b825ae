ghost use Rattle.mesh_report.specs.Reporting.{Asked, RanFrom, RanOutFrom, standing_of};

use crate::report::Report;
use mesh_stream::event::Event;
use mesh_stream::fault::LayerName;
use mesh_stream::stage::{Stage, Standing};

impl Report {
    // Takes the next event of the stage. Where there is none, or where it is not accepted, it answers how the report stands then,
    // for the caller to keep.
    fn take_next<S: Stage<Item = Event>>(&mut self, stage: &mut S) -> Result<(), Standing>
        ensures { Asked self.old self.new (S.Stage.port stage.old) (S.Stage.meaning stage.old) (S.Stage.port stage.new) (S.Stage.meaning stage.new) result }
    {
        match stage.next() {
            // with `map_err` in place of this match a report takes a tenth longer
            Ok(event) => match self.take(event) {
                Ok(()) => Ok(()),
                Err(cause) => Err(Standing::faulty(LayerName::Report, cause, event.place())),
            },
            Err(below) => Err(self.judge.stand(LayerName::Report, below)),
        }
    }

    // Takes at most n events from the stage, and answers how many.
    pub fn run<S: Stage<Item = Event>>(&mut self, stage: &mut S, n: u64) -> u64
        ensures { RanFrom self.old self.new
            (S.Stage.port stage.old) (S.Stage.meaning stage.old) (S.Stage.port stage.new) (S.Stage.meaning stage.new)
            (standing_of self.old) n result }
    {
        let Standing::Waiting = self.standing else {
            return 0;
        };
        for taken in 0..n {
            if let Err(standing) = self.take_next(stage) {
                self.standing = standing;
                return taken;
            }
        }
        n
    }

    // Takes all that the stage has now.
    pub fn run_out<S: Stage<Item = Event>>(&mut self, stage: &mut S)
        ensures { RanOutFrom self.old self.new
            (S.Stage.port stage.old) (S.Stage.meaning stage.old) (S.Stage.port stage.new) (S.Stage.meaning stage.new)
            (standing_of self.old) }
    {
        let Standing::Waiting = self.standing else {
            return;
        };
        loop {
            if let Err(standing) = self.take_next(stage) {
                self.standing = standing;
                return;
            }
        }
    }
}
