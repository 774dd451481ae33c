//! Severity levels: one of four, stored as a 16-bit number.
ghost use Rattle.std.specs.Prelude.{◌≡◌, MatchOption};
ghost use Rattle.columnar_core.specs.Row.{Row};
ghost use Rattle.event_log.specs.Levels.{level_number, named_level};

use columnar_core::traits::Item;
use columnar_primitive::codes::{Coded, Codes};
use columnar_primitive::rule::Rule;

/// The severity of an event.
#[derive(Clone, Copy)]
pub enum Level {
    Debug,
    Info,
    Warn,
    Error,
}

/// A column of levels.
pub type Levels = Codes<Vec<u16>, Level>;

impl Level {
    /// Returns the level with this name.
    pub fn named(word: &str) -> Option<Level>
        ensures { MatchOption result (named_level word.now ≡ 4) (λ l. named_level word.now ≡ level_number l) }
    {
        if word == "debug" {
            return Some(Level::Debug);
        }
        if word == "info" {
            return Some(Level::Info);
        }
        if word == "warn" {
            return Some(Level::Warn);
        }
        if word == "error" {
            return Some(Level::Error);
        }
        None
    }

    /// Returns its number.
    pub fn number(self) -> u16
        ensures { result ≡ level_number self }
    {
        match self {
            Level::Debug => 0,
            Level::Info => 1,
            Level::Warn => 2,
            Level::Error => 3,
        }
    }
}

impl Item for Level {
    ghost use Rattle.event_log.specs.Levels.{level_row};

    ghost meaning = { level_row };

    ghost valid = { λ x. Unit {0} };
}

impl Rule for Level {
    ghost use Rattle.event_log.specs.Levels.{is_level};

    type Code = u16;

    ghost is_code = { is_level };

    fn fits(code: u16) -> bool {
        code < 4
    }
}

impl Coded for Level {
    ghost row_of = { λ r. r };

    fn code(self) -> u16 {
        self.number()
    }

    fn from_code(code: u16) -> Level {
        match code {
            0 => Level::Debug,
            1 => Level::Info,
            2 => Level::Warn,
            3 => Level::Error,
            _ => unreachable!(),
        }
    }

    fn always_fits() -> bool {
        false
    }
}
