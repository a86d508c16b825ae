ghost use Rattle.std.specs.Prelude.{◌≡◌};
ghost use Rattle.mesh_stream.specs.declared.stage.Standing.TheVariants.{Faulty};
ghost use Rattle.mesh_stream.specs.Meaning.{Meaning, Port, Lawful, TakesText, room};
ghost use Rattle.mesh_stream.specs.Calls.{Nexted, Fed, Closed};

use crate::fault::{Cause, Fault, LayerName, Refusal};

// How a stage stands once it has handed over all that it has: it waits for more text, or it ended, or it is at fault.
#[derive(Clone, Copy, PartialEq, Eq, Debug)]
pub enum Standing {
    Waiting,
    Ended,
    Faulty(Fault),
}

impl Standing {
    // At fault, for what this layer names.
    pub fn faulty(layer: LayerName, cause: Cause, place: u32) -> Standing
        ensures { result ≡ Faulty (record { layer = layer; cause = cause; place = place }) }
    {
        Standing::Faulty(Fault {
            layer,
            cause,
            place,
        })
    }
}

// A stage hands over items of one kind, one by one.
pub trait Stage {
    type Item;

    // For every text that may still come and each mark: all items that it will hand over, and how it then stands.
    ghost meaning: { Self → Meaning Self.Item };

    // Whether it takes no text, or is open with a room, or is closed: a member of its own, which the promise of `next` names.
    ghost port: { Self → Port };

    // What every stage keeps.
    ghost lawful: { (s : Self) → Lawful (port s) (meaning s) };

    // Answers the next item, or, where there is none now, how the stage stands.
    fn next(&mut self) -> Result<Self::Item, Standing>
        ensures { Nexted (port self.old) (meaning self.old) result (port self.new) (meaning self.new) };
}

// An inlet is a stage that also takes text. It is open until it is closed, and its room is how many bytes it takes now.
pub trait Inlet: Stage {
    fn room(&self) -> usize
        ensures { result ≡ room (Self.Stage.port self.now) };

    // Takes as much of the front of the piece as there is room for, and answers how many bytes that is.
    fn feed(&mut self, piece: &[u8]) -> Result<usize, Refusal>
        ensures { Fed (Self.Stage.port self.old) (Self.Stage.meaning self.old) piece.now result (Self.Stage.port self.new) (Self.Stage.meaning self.new) };

    // Says that no more text comes.
    fn close(&mut self) -> Result<(), Refusal>
        ensures { Closed (Self.Stage.port self.old) (Self.Stage.meaning self.old) result (Self.Stage.port self.new) (Self.Stage.meaning self.new) };

    // Every inlet takes text, even a closed one.
    ghost takes_text: { (s : Self) → TakesText (Self.Stage.port s) };
}
