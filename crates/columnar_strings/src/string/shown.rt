//! The displayed text of a value as an item.
ghost use Rattle.std.specs.Prelude.{IsSome};
ghost use Rattle.columnar_base.specs.Texts.{text_row};
ghost use Rattle.columnar_strings.specs.Strings.{shown_text};

use super::Strings;
use columnar_base::fault::GrowError;
use columnar_base::traits::{Item, Push, PushRef};
use columnar_core::offsets::{Offsets, PushAfter};
use std::fmt::Display;

/// The text that `Display` writes of a value, pushed as one string. The type of the value must name this text, as those
/// of numbers and texts and `format_args!` of these do.
#[derive(Clone, Copy)]
pub struct Shown<'x, D>(pub &'x D);

/// Its row is the text.
impl<'x, D: Display> Item for Shown<'x, D> {
    ghost meaning = { λ s. text_row (shown_text (D.output s.0.now)) };

    ghost valid = { λ s. IsSome (D.output s.0.now) };

    // a push makes the text in a buffer first
    ghost unbuffered = { ⊥ };
}

/// If the value itself fails to display, the error is `Memory`.
impl<'x, D: Display, BC: Offsets + PushAfter> PushRef<Shown<'x, D>> for Strings<BC, Vec<u8>> {
    fn push_ref(&mut self, item: &Shown<'x, D>) -> Result<(), GrowError> {
        match self.push_display(item.0) {
            Ok(()) => Ok(()),
            Err(GrowError::Length) => Err(GrowError::Length),
            Err(GrowError::Offset) => Err(GrowError::Offset),
            Err(GrowError::Memory | GrowError::Format) => Err(GrowError::Memory),
        }
    }
}

/// If the value itself fails to display, the error is `Memory`.
impl<'x, D: Display, BC: Offsets + PushAfter> Push<Shown<'x, D>> for Strings<BC, Vec<u8>> {
    fn push(&mut self, item: Shown<'x, D>) -> Result<(), GrowError> {
        self.push_ref(&item)
    }
}
