// How a text comes from what is read to a stage.
ghost use Rattle.std.specs.Prelude.{◌≡◌, ◌≤◌, length, IfOk, OnOk};
ghost use Rattle.mesh_stream.specs.Meaning.{room};
ghost use Rattle.mesh_listing.specs.Steps.{PieceRead, PieceTaken, TextPassed};

use mesh_stream::stage::Inlet;
use std::io;
use std::io::Read;

// Reads into the front of the piece, at most so many bytes.
fn read_piece<R: Read>(input: &mut R, piece: &mut [u8], most: usize) -> io::Result<usize>
    ensures read { IfOk result (λ n. PieceRead most (R.Read.remaining input.old) (R.Read.remaining input.new) n piece.new) }
    ensures same_length { length piece.new ≡ length piece.old }
{
    let most = most.min(piece.len());
    input.read(&mut piece[0..most])
}

// Feeds the stage a piece of the text, no more than it has room for, or closes it where the text has ended. A stage with room is open,
// so neither is refused.
pub fn pass_text<R: Read, S: Inlet>(
    input: &mut R,
    stage: &mut S,
    piece: &mut [u8],
) -> io::Result<()>
    requires room { 1 ≤ room (S.Stage.port stage.now) }
    requires piece { 1 ≤ length piece.now }
    ensures passed { OnOk result (TextPassed (R.Read.remaining input.old) (R.Read.remaining input.new)
        (S.Stage.meaning stage.old) (S.Stage.port stage.new) (S.Stage.meaning stage.new)) }
    ensures taken { OnOk result (PieceTaken (length piece.old) (R.Read.remaining input.old) (R.Read.remaining input.new)
        (S.Stage.meaning stage.old) (S.Stage.meaning stage.new)) }
    ensures same_length { length piece.new ≡ length piece.old }
{
    let length = read_piece(input, piece, stage.room())?;
    if length == 0 {
        stage.close().unwrap();
    } else {
        stage.feed(&piece[0..length]).unwrap();
    }
    Ok(())
}
