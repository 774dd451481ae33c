//! Severity levels: your own value type, each value stored as a 16-bit number.
ghost use Rattle.std.specs.Prelude.{◌≡◌, true};
ghost use Rattle.columnar.specs.Row.{Row};

use columnar::Item;
use columnar::primitive::{Coded, Codes, Rule};

/// The severity of an event.
#[derive(Clone, Copy, Debug, PartialEq, Eq)]
pub enum Level {
    /// For information only.
    Note,
    /// It needs attention.
    Warning,
    /// An operation failed.
    Failure,
}

/// A column of levels.
pub type Levels = Codes<Vec<u16>, Level>;

impl Item for Level {
    ghost use Rattle.examples.specs.Levels.{level_row};

    ghost meaning = { level_row };

    ghost valid = { λ x. Unit {0} };
}

impl Rule for Level {
    ghost use Rattle.examples.specs.Levels.{is_level};

    type Code = u16;

    ghost is_code = { is_level };

    fn fits(code: u16) -> bool {
        code < 3
    }
}

impl Coded for Level {
    ghost row_of = { λ r. r };

    fn code(self) -> u16 {
        match self {
            Level::Note => 0,
            Level::Warning => 1,
            Level::Failure => 2,
        }
    }

    fn from_code(code: u16) -> Level {
        match code {
            0 => Level::Note,
            1 => Level::Warning,
            2 => Level::Failure,
            _ => unreachable!(),
        }
    }

    fn always_fits() -> bool {
        false
    }
}
