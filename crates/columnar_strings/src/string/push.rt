//! What can be pushed into a column of strings, each as one string.
ghost use Rattle.std.specs.Prelude.{◌≡◌};
ghost use Rattle.columnar_base.specs.Texts.{text_row};

use super::Strings;
use columnar_base::fault::GrowError;
use columnar_base::traits::{Item, Push, PushRef};
use columnar_core::container::Truncate;
use columnar_core::offsets::{Offsets, PushAfter};
use columnar_lists::parts::push_list;
use std::boxed::BoxedStr;

/// An item that is a string: the list of its bytes.
pub trait Text: Item {
    /// Returns the bytes of the string.
    fn text_bytes(&self) -> &[u8]
        ensures { Self.meaning self.now ≡ text_row result.now };
}

impl<'x> Text for &'x [u8] {
    #[inline(always)]
    fn text_bytes(&self) -> &[u8] {
        *self
    }
}

impl<'x> Text for &'x str {
    #[inline(always)]
    fn text_bytes(&self) -> &[u8] {
        (*self).as_bytes()
    }
}

impl Text for String {
    #[inline(always)]
    fn text_bytes(&self) -> &[u8] {
        self.as_bytes()
    }
}

impl Text for BoxedStr {
    #[inline(always)]
    fn text_bytes(&self) -> &[u8] {
        self.as_str().as_bytes()
    }
}

impl Text for Vec<u8> {
    #[inline(always)]
    fn text_bytes(&self) -> &[u8] {
        self.as_slice()
    }
}

impl<'x, T: Text> Text for &'x T {
    #[inline(always)]
    fn text_bytes(&self) -> &[u8] {
        (**self).text_bytes()
    }
}

/// Copies all bytes at once.
impl<T: Text + Drop, BC: Offsets + PushAfter, VC: Truncate + PushRef<u8>> Push<T>
    for Strings<BC, VC> {
    #[inline(always)]
    fn push(&mut self, item: T) -> Result<(), GrowError> {
        push_list(&mut self.bounds, &mut self.values, item.text_bytes())
    }
}

/// Copies all bytes at once.
impl<T: Text, BC: Offsets + PushAfter, VC: Truncate + PushRef<u8>> PushRef<T> for Strings<BC, VC> {
    #[inline(always)]
    fn push_ref(&mut self, item: &T) -> Result<(), GrowError> {
        push_list(&mut self.bounds, &mut self.values, item.text_bytes())
    }
}
