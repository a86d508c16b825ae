// The settings of a grid, read from the words of a command line.
ghost use Rattle.std.specs.Prelude.{IfOk, OnErr};
ghost use Rattle.grid_text.specs.Settings.{IsSetting, HasSetting};

use std::num::ParseIntError;

#[derive(Clone, Copy)]
pub struct Settings {
    pub columns: u32,
    pub rows: u32,
    pub step: u32,
}

impl Settings {
    // The settings on a command line, of which the first word is the program's name; words after the fourth are not read.
    pub fn of(words: &[String]) -> Result<Settings, ParseIntError>
        ensures columns { IfOk result (λ s. IsSetting words.now 1 s.columns) }
        ensures rows { IfOk result (λ s. IsSetting words.now 2 s.rows) }
        ensures step { IfOk result (λ s. IsSetting words.now 3 s.step) }
        ensures refused { OnErr result (HasSetting words.now 1 → HasSetting words.now 2 → HasSetting words.now 3 → ⊥) }
    {
        Ok(Settings {
            columns: setting(words, 1)?,
            rows: setting(words, 2)?,
            step: setting(words, 3)?,
        })
    }
}

// The number that the word at this place spells. One that is missing is 0, which no grid allows.
fn setting(words: &[String], place: usize) -> Result<u32, ParseIntError>
    ensures spelled { IfOk result (IsSetting words.now place) }
    ensures refused { OnErr result (HasSetting words.now place → ⊥) }
{
    match words.get(place) {
        Some(word) => word.as_str().parse::<u32>(),
        None => Ok(0),
    }
}
