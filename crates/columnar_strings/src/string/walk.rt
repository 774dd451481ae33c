//! Iterating over strings.
ghost use Rattle.std.specs.Prelude.{◌≡◌, ⊤, length, Some, IfSome};
ghost use Rattle.std.specs.Int.{to_le_bytes, w8};
ghost use Rattle.columnar_base.specs.Format.{both, IsSound};
ghost use Rattle.columnar_base.specs.Elements.{elements};
ghost use Rattle.columnar_base.specs.Texts.{text_row};
ghost use Rattle.columnar_lists.specs.Walks.{WalkStands};
ghost use Rattle.columnar_strings.specs.Strings.{strings_format};

use super::Strings;
use columnar_base::traits::{Column, Len};
use columnar_core::offsets::Offsets;
use columnar_core::vector::elements_between;
use columnar_lists::walk::Ranges;

/// Iterates over strings in order, each as its bytes in place. It finds each string from the end of the one before.
#[derive(Drop)]
pub struct StringIter<'a, W: Column> {
    values: &'a [u8],
    bounds: W,
    ranges: Ranges,
    ghost sound: { IsSound (strings_format W.format) (both (W.content bounds) (elements (to_le_bytes w8) values.now)) },
    ghost stands: { WalkStands (W.format.rows (W.content bounds)) ranges },
}

impl<'a, W: Offsets> StringIter<'a, W> {
    ghost use Rattle.columnar_strings.specs.StringWalks.{strings_left};

    // Iterates over all strings of a column.
    fn new(bounds: W, values: &'a [u8]) -> Self
        requires { IsSound (strings_format W.format) (both (W.content bounds) (elements (to_le_bytes w8) values.now)) }
        ensures { strings_left result ≡ (strings_format W.format).rows (both (W.content bounds) (elements (to_le_bytes w8) values.now)) }
    {
        let ranges = Ranges::of(&bounds);
        StringIter {
            values,
            bounds,
            ranges,
        }
    }
}

impl<'a, W: Offsets + Drop> Iterator for StringIter<'a, W> {
    ghost use Rattle.columnar_base.specs.RowsLeft.{GivesRow};
    ghost use Rattle.columnar_strings.specs.StringWalks.{strings_left, bytes_row};
    ghost use Rattle.std.specs.Iterator.{item_count, UpTo};
    ghost use Rattle.std.specs.Iterator.SizeHint.{IsWithinCount};

    type Item = &'a [u8];

    ghost next_gives = { GivesRow strings_left bytes_row (λ s. ⊤) };

    ghost remaining = { item_count strings_left };

    /// Returns the next string, or `None` after the last one, at every further call.
    fn next(&mut self) -> Option<&'a [u8]> {
        let Some((lower, upper)) = self.ranges.next(&self.bounds) else {
            return None;
        };
        Some(elements_between(self.values, lower, upper))
    }

    /// Returns the number of remaining strings as both bounds.
    fn size_hint(&self) -> (usize, Option<usize>)
        ensures lower { IsWithinCount result.0 (item_count strings_left self.now) }
        ensures upper { IfSome result.1 (UpTo (item_count strings_left self.now)) }
        ensures left { result ≡ (length (strings_left self.now), Some (length (strings_left self.now))) }
    {
        let left = ExactSizeIterator::len(self);
        (left, Some(left))
    }
}

impl<'a, W: Offsets + Drop> ExactSizeIterator for StringIter<'a, W> {
    /// Returns the number of remaining strings.
    fn len(&self) -> usize {
        self.ranges.left()
    }
}

impl<'a, BC: Offsets> Strings<BC, &'a [u8]> {
    ghost use Rattle.columnar_strings.specs.StringWalks.{strings_left};

    /// Iterates over the strings in order, through a reference.
    ///
    /// # Requires
    /// A well-formed column.
    pub fn index_iter<'x>(&'x self) -> StringIter<'a, &'x BC>
        requires { IsSound (strings_format BC.format) (⟦<Strings<BC, &'a [u8]> as Column>⟧.content self.now) }
        ensures { strings_left result ≡ (strings_format BC.format).rows (⟦<Strings<BC, &'a [u8]> as Column>⟧.content self.now) }
    {
        StringIter::new(&self.bounds, self.values)
    }

    /// Iterates over the strings in order.
    ///
    /// # Requires
    /// A well-formed column.
    pub fn into_index_iter(self) -> StringIter<'a, BC>
        requires { IsSound (strings_format BC.format) (⟦<Strings<BC, &'a [u8]> as Column>⟧.content self) }
        ensures { strings_left result ≡ (strings_format BC.format).rows (⟦<Strings<BC, &'a [u8]> as Column>⟧.content self.entry) }
    {
        let Strings { bounds, values } = self;
        StringIter::new(bounds, values)
    }
}

impl<BC: Offsets> Strings<BC, Vec<u8>> {
    ghost use Rattle.columnar_strings.specs.StringWalks.{strings_left};

    /// Iterates over the strings in order, through a reference.
    ///
    /// # Requires
    /// A well-formed column.
    pub fn index_iter<'x>(&'x self) -> StringIter<'x, &'x BC>
        requires { IsSound (strings_format BC.format) (⟦<Strings<BC, Vec<u8>> as Column>⟧.content self.now) }
        ensures { strings_left result ≡ (strings_format BC.format).rows (⟦<Strings<BC, Vec<u8>> as Column>⟧.content self.now) }
    {
        StringIter::new(&self.bounds, self.values.as_slice())
    }
}
