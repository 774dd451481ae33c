//! Columns that wrap another column: writes go to the inner column.
use crate::set::{SetAny, SetRow};
use columnar_core::boxed::Boxed;
use columnar_core::traits::Item;

/// Writes the content of the box.
impl<T: Item, C: SetRow<T>> SetRow<Boxed<T>> for Boxed<C> {
    ghost fits = { λ r item. C.fits r item.0 };

    fn may_set(&self, index: usize, item: &Boxed<T>) -> bool {
        self.0.may_set(index, &item.0)
    }

    fn set_row(&mut self, index: usize, item: Boxed<T>) {
        self.0.set_row(index, item.0);
    }
}

impl<T: Item, C: SetAny<T>> SetAny<Boxed<T>> for Boxed<C> {
    ghost any = { λ r item. C.any r item.0 };
}

impl<'b, T: Item, C: SetRow<T>> SetRow<T> for &'b mut C {
    ghost fits = { C.fits };

    fn may_set(&self, index: usize, item: &T) -> bool {
        (**self).may_set(index, item)
    }

    fn set_row(&mut self, index: usize, item: T) {
        (**self).set_row(index, item);
    }
}

impl<'b, T: Item, C: SetAny<T>> SetAny<T> for &'b mut C {
    ghost any = { C.any };
}
