// How it is shown why a record is not taken in.
ghost use Rattle.std.specs.Prelude.{Some as Known};
ghost use Rattle.mesh_table.specs.Shown.{insert_error_text};

use crate::table::InsertError;
use std::error::Error;
use std::fmt;

impl fmt::Display for InsertError {
    ghost output = { λ e. Known (insert_error_text e) };

    fn fmt<W: fmt::Write>(&self, f: &mut fmt::Formatter<W>) -> fmt::Result {
        match self {
            InsertError::KeyPresent => write!(f, "the key has a record"),
            InsertError::AtLimit => write!(f, "the table is at its limit"),
        }
    }
}

impl Error for InsertError {}
