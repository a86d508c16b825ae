// A stage on the heap: the layers of a tall pile are too large to be passed on by value from call to call.
use crate::memory::Made;
use mesh_pipe::{Inlet, Refusal, Stage, Standing};
use std::alloc::Global;

#[derive(Drop)]
pub struct Heaped<S> {
    stage: Box<S>,
}

impl<S: Drop> Heaped<S> {
    pub fn new(alloc: Global, stage: S) -> Made<Heaped<S>> {
        Ok(Heaped {
            stage: Box::new(alloc, stage)?,
        })
    }
}

impl<S: Stage> Stage for Heaped<S> {
    type Item = S::Item;

    ghost meaning = { λ s. S.meaning s.stage.value };

    ghost port = { λ s. S.port s.stage.value };

    ghost lawful = { λ s. S.lawful s.stage.value };

    fn next(&mut self) -> Result<S::Item, Standing> {
        self.stage.next()
    }
}

impl<S: Inlet> Inlet for Heaped<S> {
    fn room(&self) -> usize {
        self.stage.room()
    }

    fn feed(&mut self, piece: &[u8]) -> Result<usize, Refusal> {
        self.stage.feed(piece)
    }

    fn close(&mut self) -> Result<(), Refusal> {
        self.stage.close()
    }

    ghost takes_text = { λ s. S.takes_text s.stage.value };
}
