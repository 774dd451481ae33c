//! Ranges of the rows of a view, for a shorter lifetime.
ghost use Rattle.columnar_core.specs.StoreLaws.{same_part};

use crate::container::{Reborrow, ReborrowRef};
pub use columnar_rows::slice::Slice;

impl<'b, S: Reborrow<'b>> Reborrow<'b> for Slice<S> {
    type Short = Slice<S::Short>;

    ghost same_short = { same_part S.same_short };

    fn reborrow(self) -> Slice<S::Short> {
        Slice {
            lower: self.lower,
            upper: self.upper,
            slice: self.slice.reborrow(),
        }
    }
}

impl<'b, S: Reborrow<'b>> ReborrowRef<'b> for Slice<S> {
    type ShortRef = Slice<S::Short>;

    fn reborrow_ref(self) -> Slice<S::Short> {
        self.reborrow()
    }
}
