//! The displayed text of a value, as a string.
ghost use Rattle.std.specs.Prelude.{◌≡◌, ℕ, List, [], ◌∷◌, ◌++◌, IfOk, IfErr, OnOk, IfSome};
ghost use Rattle.columnar_base.specs.Change.{Took};
ghost use Rattle.columnar_base.specs.Format.{both, IsSound};
ghost use Rattle.columnar_base.specs.Room.{Leaves};
ghost use Rattle.columnar_base.specs.Texts.{text_row};
ghost use Rattle.columnar_strings.specs.Strings.{AddsShown, IsUnshown, RefusesShown, Shows, strings_format};

use super::Strings;
use columnar_base::fault::GrowError;
use columnar_base::traits::{Column, Push};
use columnar_core::offsets::{Offsets, PushAfter};
use columnar_lists::parts::push_list;
use std::alloc::Global;
use std::fmt::{self, Display, Write};

// What a value has displayed, and whether an allocation failed meanwhile.
#[derive(Drop)]
struct ShownText {
    text: Vec<u8>,
    refused: bool,
}

impl Write for ShownText {
    ghost write_str_gives = { λ s bs t. t.text.items ≡ s.text.items ++ bs };

    fn write_str(&mut self, s: &str) -> fmt::Result {
        match self.text.extend_from_slice(s.as_bytes()) {
            Ok(()) => Ok(()),
            Err(_) => {
                self.refused = true;
                Err(fmt::Error)
            }
        }
    }
}

// Returns the displayed text of a value. Fails with `Memory` if an allocation failed, otherwise with `Format` if the
// value failed.
fn text_of<D: Display>(alloc: Global, value: &D) -> Result<Vec<u8>, GrowError>
    ensures ok { IfOk result (λ v. Shows (D.output value.now) v.items) }
    ensures err { IfErr result IsUnshown }
{
    let mut shown = ShownText {
        text: Vec::new(alloc),
        refused: false,
    };
    let written = shown.write(value);
    if shown.refused {
        return Err(GrowError::Memory);
    }
    match written {
        Ok(()) => Ok(shown.text),
        Err(_) => Err(GrowError::Format),
    }
}

impl<BC: Offsets + PushAfter> Strings<BC, Vec<u8>> {
    /// Appends the displayed text of `value` as one string. Allocates memory for the text too.
    ///
    /// # Requires
    /// A well-formed column.
    ///
    /// # Errors
    /// `Format` if the value failed to display; otherwise as a push of the text. The rows and the lengths of both parts
    /// stay.
    pub fn push_display<D: Display>(&mut self, value: &D) -> Result<(), GrowError>
        requires sound { IsSound (strings_format BC.format) (⟦<Strings<BC, Vec<u8>> as Column>⟧.content self.old) }
        ensures ok { OnOk result (AddsShown (strings_format BC.format) (⟦<Strings<BC, Vec<u8>> as Column>⟧.content self.old) (⟦<Strings<BC, Vec<u8>> as Column>⟧.content self.new) (D.output value.now)) }
        ensures err { IfErr result (RefusesShown (strings_format BC.format) (⟦<Strings<BC, Vec<u8>> as Column>⟧.content self.old) (⟦<Strings<BC, Vec<u8>> as Column>⟧.content self.new) (D.output value.now)) }
        ensures left { OnOk result ((text : List ℕ) × (Shows (D.output value.now) text × (Took (strings_format BC.format) (⟦<Strings<BC, Vec<u8>> as Column>⟧.content self.old) (⟦<Strings<BC, Vec<u8>> as Column>⟧.content self.new) (text_row text ∷ []) × Leaves (⟦<Strings<BC, Vec<u8>> as Column>⟧.room self.old) (⟦<Strings<BC, Vec<u8>> as Column>⟧.room self.new) (text_row text ∷ [])))) }
    {
        let text = text_of(*self.values.allocator(), value)?;
        push_list(&mut self.bounds, &mut self.values, text.as_slice())
    }
}
