//! In-place writes of numbers, of values stored as codes, of durations and of units.
ghost use Rattle.std.specs.Prelude.{⊤, ◌≡◌};

use crate::set::{SetAny, SetRow};
use columnar_core::element::Element;
use columnar_primitive::codes::{Coded, Codes};
use columnar_primitive::count::Count;
use columnar_primitive::durations::Durations;
use columnar_primitive::empties::Empties;
use std::time::Duration;

impl<T: Element> SetRow<T> for Vec<T> {
    ghost fits = { λ r item. ⊤ };

    fn may_set(&self, _index: usize, _item: &T) -> bool {
        true
    }

    fn set_row(&mut self, index: usize, item: T) {
        self[index] = item;
    }
}

impl<T: Element> SetAny<T> for Vec<T> {
    ghost any = { λ r item. tt };
}

/// Also accepts the item type of a view of bytes.
impl<'x> SetRow<&'x u8> for Vec<u8> {
    ghost fits = { λ r item. ⊤ };

    fn may_set(&self, _index: usize, _item: &&'x u8) -> bool {
        true
    }

    fn set_row(&mut self, index: usize, item: &'x u8) {
        <Vec<u8> as SetRow<u8>>::set_row(self, index, *item);
    }
}

impl<'x> SetAny<&'x u8> for Vec<u8> {
    ghost any = { λ r item. tt };
}

/// Writes the code of the value.
impl<T: Coded, CV: SetAny<T::Code>> SetRow<T> for Codes<CV, T> {
    ghost fits = { λ r item. ⊤ };

    fn may_set(&self, _index: usize, _item: &T) -> bool {
        true
    }

    fn set_row(&mut self, index: usize, item: T) {
        self.values.set_row(index, item.code());
    }
}

impl<T: Coded, CV: SetAny<T::Code>> SetAny<T> for Codes<CV, T> {
    ghost any = { λ r item. tt };
}

/// Writes the seconds and the nanoseconds.
impl<SC: SetAny<u64>, NC: SetAny<u32>> SetRow<Duration> for Durations<SC, NC> {
    ghost fits = { λ r item. ⊤ };

    fn may_set(&self, _index: usize, _item: &Duration) -> bool {
        true
    }

    fn set_row(&mut self, index: usize, item: Duration) {
        self.seconds.set_row(index, item.as_secs());
        self.nanoseconds.set_row(index, item.subsec_nanos());
    }
}

impl<SC: SetAny<u64>, NC: SetAny<u32>> SetAny<Duration> for Durations<SC, NC> {
    ghost any = { λ r item. tt };
}

/// There is only one unit, so nothing is written.
impl<CC: Count> SetRow<()> for Empties<CC> {
    ghost fits = { λ r item. ⊤ };

    fn may_set(&self, _index: usize, _item: &()) -> bool {
        true
    }

    fn set_row(&mut self, _index: usize, _item: ()) {}
}

impl<CC: Count> SetAny<()> for Empties<CC> {
    ghost any = { λ r item. tt };
}
