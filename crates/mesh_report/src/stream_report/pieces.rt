ghost use Rattle.std.specs.Prelude.{ℕ, List, [], ◌++◌};
ghost use Rattle.mesh_stream.specs.declared.event.Event.{Event as MeshEvent};
ghost use Rattle.mesh_stream.specs.Meaning.{closed, Outcome};
ghost use Rattle.mesh_report.specs.Reporting.{reported};
ghost use Rattle.mesh_report.specs.Streaming.{WillSay, Finished};

use crate::report::Report;
use crate::stream_report::StreamReport;
use mesh_stream::event::Event;
use mesh_stream::stage::{Inlet, Standing};

impl<S: Inlet<Item = Event> + Drop> StreamReport<S> {
    // A report on whatever the stage will give.
    pub fn new(stage: S) -> StreamReport<S>
        ensures { (t : List ℕ) → WillSay S.Stage.meaning result t (reported (S.Stage.meaning stage t closed)) }
    {
        StreamReport {
            stage,
            report: Report::new(),
        }
    }

    // Takes the whole piece, however little room the stage has: it is fed as far as there is room, and then read. Once the stage or
    // the report ended or is at fault, no byte matters any more, and the rest is left.
    pub fn push(&mut self, piece: &[u8])
        ensures { (t : List ℕ) (o : Outcome MeshEvent) → WillSay S.Stage.meaning self.old (piece.now ++ t) o → WillSay S.Stage.meaning self.new t o }
    {
        let mut rest = piece;
        loop {
            self.report.run_out(&mut self.stage);
            let Standing::Waiting = self.report.standing() else {
                return;
            };
            if rest.is_empty() {
                return;
            }
            let Ok(taken) = self.stage.feed(rest) else {
                return;
            };
            rest = &rest[taken..];
        }
    }

    // Says that no more text comes, and answers the finished report.
    pub fn finish(self) -> Report
        ensures { (o : Outcome MeshEvent) → WillSay S.Stage.meaning self [] o → Finished result o }
    {
        let StreamReport {
            mut stage,
            mut report,
        } = self;
        let _ = stage.close();
        report.run_out(&mut stage);
        report
    }
}
