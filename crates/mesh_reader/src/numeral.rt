ghost use Rattle.std.specs.Prelude.{◌≡◌};
ghost use Rattle.mesh_reader.specs.Numerals.{coordinate_of, vertex_of};

use mesh_stream::fault::Cause;
use mesh_stream::range::{is_coordinate, is_vertex_number};

// A word of 1 to 9 digits, before which a minus may stand: whether it has one, and what the digits say.
#[derive(Clone, Copy)]
pub(crate) struct Numeral {
    pub minus: bool,
    pub size: u32,
}

// A word as a coordinate in range.
pub(crate) fn coordinate(word: Option<Numeral>) -> Result<i32, Cause>
    ensures { result ≡ coordinate_of word }
{
    let Numeral { minus, size } = word.ok_or(Cause::NotANumber)?;
    let size = i32::try_from(size).map_err(|_| Cause::OutOfRange)?;
    let z = if minus { -size } else { size };
    if !is_coordinate(z) {
        return Err(Cause::OutOfRange);
    }
    Ok(z)
}

// A word as a vertex number in range, which has no sign.
pub(crate) fn vertex_number(word: Option<Numeral>) -> Result<u32, Cause>
    ensures { result ≡ vertex_of word }
{
    let Numeral { minus, size } = word.ok_or(Cause::NotANumber)?;
    if minus {
        return Err(Cause::NotANumber);
    }
    if !is_vertex_number(size) {
        return Err(Cause::OutOfRange);
    }
    Ok(size)
}
