ghost use Rattle.std.specs.Prelude.{◌≡◌, None};
ghost use Rattle.mesh_stream.specs.Calls.{Nexted};
ghost use Rattle.mesh_layer.specs.Filtering.{Asks};
ghost use Rattle.mesh_layer.specs.Layering.{makes, seen_through, stage_below, Took};

use super::Layer;
use crate::filter::Filter;
use mesh_stream::stage::{Stage, Standing};

impl<S: Stage, F: Filter<In = S::Item>> Layer<S, F> {
    // Has the filter take an item, and answers the first of what is to be handed over for it. A fault is kept.
    fn take_in(&mut self, item: S::Item) -> Option<F::Out>
        requires { self.old.fault ≡ None }
        ensures below { self.new.below ≡ self.old.below }
        ensures took { Took F.Filter self.old item result self.new }
    {
        match self.filter.take(item) {
            Ok(mut rest) => {
                let first = self.filter.give(&mut rest);
                self.rest = rest;
                first
            }
            Err(fault) => {
                self.fault = Some(fault);
                None
            }
        }
    }
}

impl<S: Stage, F: Filter<In = S::Item>> Stage for Layer<S, F> {
    type Item = F::Out;

    ghost meaning = { λ l. (seen_through S.Stage F.Filter l).means };

    ghost port = { λ l. (seen_through S.Stage F.Filter l).port };

    ghost lawful = { λ l. (seen_through S.Stage F.Filter l).lawful };

    fn next(&mut self) -> Result<F::Out, Standing>
        ensures rule { Nexted (seen_through S.Stage F.Filter self.old).port (seen_through S.Stage F.Filter self.old).means result
            (seen_through S.Stage F.Filter self.new).port (seen_through S.Stage F.Filter self.new).means }
        ensures asks { Asks (makes F.Filter self.old) (S.Stage.meaning (stage_below self.old)) (S.Stage.meaning (stage_below self.new)) }
    {
        loop {
            if let Some(fault) = self.fault {
                return Err(Standing::Faulty(fault));
            }
            if let Some(item) = self.filter.give(&mut self.rest) {
                return Ok(item);
            }
            match self.below.next() {
                Ok(item) => {
                    if let Some(first) = self.take_in(item) {
                        return Ok(first);
                    }
                }
                Err(below) => return Err(self.filter.stand(below)),
            }
        }
    }
}
