//! Flags before a type and after the files.
ghost use Rattle.std.specs.Prelude.{◌≡◌};
ghost use Rattle.columnar_tool.specs.Flags.{flags_in};

use columnar_syntax::schema::Bounds;

/// What the flags say.
#[derive(Clone, Copy, PartialEq, Drop)]
pub struct Flags {
    /// How the ends of the lists of `Vec<T>` are stored.
    pub lists: Bounds,
    /// Whether a file holds stores one after another.
    pub stores: bool,
    /// Whether rows are asked for as JSON.
    pub json: bool,
    /// Whether rows are asked for as CSV.
    pub csv: bool,
    /// Whether fields are chosen.
    pub fields: bool,
    /// Whether the next word has their names.
    pub names_next: bool,
}

/// No flags.
pub const NONE: Flags = Flags {
    lists: Bounds::Unaries,
    stores: false,
    json: false,
    csv: false,
    fields: false,
    names_next: false,
};

/// Reads the flags at the beginning, after others. Returns what all of them say, and the words after them.
pub fn flags_of(words: &[String], flags: Flags) -> (Flags, &[String])
    ensures flags { result.0 ≡ (flags_in flags words.now).0 }
    ensures rest { result.1.now ≡ (flags_in flags words.now).1 }
{
    match words {
        [_, rest @ ..] if flags.names_next => {
            let names_next = false;
            flags_of(
                rest,
                Flags {
                    names_next,
                    ..flags
                },
            )
        }
        [word, rest @ ..] if word.as_str() == "--rust" => {
            let lists = Bounds::Words;
            flags_of(rest, Flags { lists, ..flags })
        }
        [word, rest @ ..] if word.as_str() == "--stores" => {
            let stores = true;
            flags_of(rest, Flags { stores, ..flags })
        }
        [word, rest @ ..] if word.as_str() == "--json" => {
            let json = true;
            flags_of(rest, Flags { json, ..flags })
        }
        [word, rest @ ..] if word.as_str() == "--csv" => {
            let csv = true;
            flags_of(rest, Flags { csv, ..flags })
        }
        [word, rest @ ..] if word.as_str() == "--fields" => {
            let (fields, names_next) = (true, true);
            flags_of(
                rest,
                Flags {
                    fields,
                    names_next,
                    ..flags
                },
            )
        }
        _ => (flags, words),
    }
}

/// Returns the word after `--fields`.
pub fn names_after(words: &[String]) -> Option<&str> {
    for i in 1..words.len() {
        if words[i - 1].as_str() == "--fields" {
            return Some(words[i].as_str());
        }
    }
    None
}
