//! Writes in place of your own rows: in the parts.
ghost use Rattle.std.specs.Prelude.{◌≡◌};

use crate::rows::{OwnRow, OwnRows};
use columnar_base::traits::{Item, Len};
use columnar_cells::index_mut::IndexMut;
use columnar_cells::items::SetItem;
use columnar_cells::row_mut::RowMut;
use columnar_cells::set::{SetAny, SetRow};

/// Takes rows of the parts.
impl<R: Item, P: SetRow<R>, K> SetRow<OwnRow<R, K>> for OwnRows<P, K> {
    ghost fits = { λ r item. P.fits r item.parts };

    fn may_set(&self, index: usize, item: &OwnRow<R, K>) -> bool {
        self.parts.may_set(index, &item.parts)
    }

    fn set_row(&mut self, index: usize, item: OwnRow<R, K>) {
        self.parts.set_row(index, item.parts);
    }
}

impl<R: Item, P: SetAny<R>, K> SetAny<OwnRow<R, K>> for OwnRows<P, K> {
    ghost any = { λ r item. P.any r item.parts };
}

/// The places are those of the parts.
impl<A, T: Item, P: SetItem<A, T>, K> SetItem<A, T> for OwnRows<P, K> {
    ghost fits = { P.fits };

    ghost put = { P.put };

    fn may_set_item(&self, index: usize, at: A, item: &T) -> bool {
        self.parts.may_set_item(index, at, item)
    }

    fn set_item(&mut self, index: usize, at: A, item: T) {
        self.parts.set_item(index, at, item);
    }
}

impl<'a, P: Len, K> IndexMut<'a> for OwnRows<P, K>
where
    P: 'a,
    K: 'a,
{
    type IndexMut = RowMut<'a, OwnRows<P, K>>;

    ghost lent = { λ s i r. (r.column.ghost_name ≡ s.ghost_name) × ((r.column.now ≡ s.now) × (r.index ≡ i)) };

    fn get_mut(&'a mut self, index: usize) -> RowMut<'a, OwnRows<P, K>> {
        RowMut::new(self, index)
    }

    fn last_mut(&'a mut self) -> Option<RowMut<'a, OwnRows<P, K>>> {
        let count = self.len();
        if count == 0 {
            None
        } else {
            Some(RowMut::new(self, count - 1))
        }
    }
}
