// A text reader that gets a short text in three pieces, which end inside of words and lines. That these calls succeed shows that there
// are lists of calls as the record SmallMeshes speaks of.
ghost use Rattle.std.specs.Prelude.{◌≡◌, [], ◌∷◌, Ok as Fine, Err as Not};
ghost use Rattle.mesh_stream.specs.declared.event.Event.TheVariants.{Vertex, Finalization};
ghost use Rattle.mesh_stream.specs.declared.stage.Standing.TheVariants.{Waiting};
ghost use Rattle.small_meshes.specs.SmallMeshes.{at};

use mesh_reader::reader::TextReader;
use mesh_stream::event::Event;
use mesh_stream::fault::Refusal;
use mesh_stream::stage::{Inlet, Stage, Standing};

const FIRST: &[u8] = b"v 1 2 ";

const SECOND: &[u8] = b"3\nx";

const THIRD: &[u8] = b" 1\n";

// What next answers, three times.
pub type Answers = [Result<Event, Standing>; 3];

// All pieces are fed before next is asked.
pub fn asked_at_the_end() -> Result<Answers, Refusal>
    ensures { result ≡ Fine (Fine (Vertex 1 1 (at 1 2 3)) ∷ Fine (Finalization 2 1) ∷ Not Waiting ∷ []) }
{
    let mut reader = TextReader::new();
    reader.feed(FIRST)?;
    reader.feed(SECOND)?;
    reader.feed(THIRD)?;
    Ok([reader.next(), reader.next(), reader.next()])
}

// Next is asked after each piece.
pub fn asked_between() -> Result<Answers, Refusal>
    ensures { result ≡ Fine (Not Waiting ∷ Fine (Vertex 1 1 (at 1 2 3)) ∷ Fine (Finalization 2 1) ∷ []) }
{
    let mut reader = TextReader::new();
    reader.feed(FIRST)?;
    let first = reader.next();
    reader.feed(SECOND)?;
    let second = reader.next();
    reader.feed(THIRD)?;
    let third = reader.next();
    Ok([first, second, third])
}
