ghost use Rattle.std.specs.Prelude.{◌≡◌, ℕ, List};
ghost use Rattle.mesh_stream.specs.Meaning.{Mark, open_for};
ghost use Rattle.mesh_reader.specs.Reading.{reading};
ghost use Rattle.mesh_reader.specs.contracts.reader.inlet.TextReaderStage.TheImpl.{ghosts as reads};

use super::TextReader;
use crate::kept::Kept;
use crate::numbers::Numbers;

impl TextReader {
    // A reader before the first line, open and with all of its room.
    pub fn new() -> TextReader
        ensures means { (t : List ℕ) (m : Mark) → reads.meaning result t m ≡ reading t m }
        ensures port { reads.port result ≡ open_for 4096 }
    {
        TextReader {
            kept: Kept::new(),
            next: Numbers { line: 1, vertex: 1 },
            closed: false,
        }
    }
}
