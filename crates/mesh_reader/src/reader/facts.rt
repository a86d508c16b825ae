ghost use Rattle.std.specs.Prelude.{◌≤◌, length};
ghost use Rattle.mesh_reader.specs.Readers.{kept};

use crate::reader::TextReader;

// What holds of every reader, by its type alone: it keeps no more than 4,096 bytes. Nothing to run, only to prove.
pub fn of_every_reader(reader: &TextReader)
    ensures { length (kept reader.now) ≤ 4096 }
{}
