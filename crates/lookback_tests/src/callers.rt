//! Callers that use only the contracts: none of these functions has a proof file.
ghost use Rattle.std.specs.Prelude.{◌≡◌, ◌≢◌, ◌<◌, ◌≤◌, ◌+◌, ◌-◌, ◌++◌, [], ◌∷◌, length, take, drop, slice_get, Some, None, cond, is_none, false, OnOk, IfSome};
ghost use Rattle.std.specs.Int.{to_le_bytes, w8};
ghost use Rattle.columnar_core.specs.Row.{Row, number};
ghost use Rattle.columnar_core.specs.Format.{IsSound};
ghost use Rattle.columnar_core.specs.Change.{Took};
ghost use Rattle.columnar_core.specs.Elements.{elements, bytes_format};
ghost use Rattle.columnar_sums.specs.Options.{options_format};
ghost use Rattle.columnar_lookback.specs.Repeats.{last_is, owned_repeats, viewed_repeats, repeats_format, values_between};
ghost use Rattle.columnar_lookback.specs.Lookbacks.{lookbacks_format, kept_rows, nearest, nearest_each, owned_lookbacks, values_back, viewed_lookbacks};

use columnar_core::container::{ExtendFrom, Truncate};
use columnar_core::fault::GrowError;
use columnar_core::traits::{Index, Item, Push, PushRef};
use columnar_core::view::View;
use columnar_lookback::lookbacks::Lookbacks;
use columnar_lookback::repeats::Repeats;
use columnar_lookback::same::SameAs;
use std::ops::Range;

/// Pushes an item after runs: it stores one more value, or none if the last row is the same.
pub fn run_takes<T: Item + Drop, TC: Truncate + Push<T> + SameAs<T>>(
    column: &mut Repeats<TC>,
    item: T,
) -> Result<(), GrowError>
    requires sound { IsSound (repeats_format TC.format) (owned_repeats TC.content column.old.inner) }
    requires valid { T.valid item }
    ensures stored { OnOk result (length (TC.format.rows (TC.content column.new.inner.somes)) ≡ length (TC.format.rows (TC.content column.old.inner.somes)) + cond (last_is TC.format.kin ((repeats_format TC.format).rows (owned_repeats TC.content column.old.inner)) (T.meaning item)) 0 1) }
    ensures value { OnOk result (last_is TC.format.kin ((repeats_format TC.format).rows (owned_repeats TC.content column.old.inner)) (T.meaning item) ≡ false → Took TC.format (TC.content column.old.inner.somes) (TC.content column.new.inner.somes) (T.meaning item ∷ [])) }
{
    column.push(item)
}

/// Does the same as `run_takes` with a reference.
pub fn run_takes_ref<T: Item, TC: Truncate + PushRef<T> + SameAs<T>>(
    column: &mut Repeats<TC>,
    item: &T,
) -> Result<(), GrowError>
    requires sound { IsSound (repeats_format TC.format) (owned_repeats TC.content column.old.inner) }
    requires valid { T.valid item.now }
    ensures stored { OnOk result (length (TC.format.rows (TC.content column.new.inner.somes)) ≡ length (TC.format.rows (TC.content column.old.inner.somes)) + cond (last_is TC.format.kin ((repeats_format TC.format).rows (owned_repeats TC.content column.old.inner)) (T.meaning item.now)) 0 1) }
    ensures value { OnOk result (last_is TC.format.kin ((repeats_format TC.format).rows (owned_repeats TC.content column.old.inner)) (T.meaning item.now) ≡ false → Took TC.format (TC.content column.old.inner.somes) (TC.content column.new.inner.somes) (T.meaning item.now ∷ [])) }
{
    column.push_ref(item)
}

/// Copies rows after runs: the first is stored if it differs from the last row, then the range's values after it. A
/// range from row 0 that is copied into a column without rows stores the values of the range.
pub fn run_copies<'x, V: Index + Copy, TC: ExtendFrom<V> + Push<V::Ref> + SameAs<V::Ref>>(
    column: &mut Repeats<TC>,
    view: Repeats<V, View<'x, u64>, View<'x, u64>, View<'x, u64>>,
    range: Range<usize>,
) -> Result<(), GrowError>
    requires sound { IsSound (repeats_format TC.format) (owned_repeats TC.content column.old.inner) }
    requires view_sound { IsSound (repeats_format V.format) (viewed_repeats V.content view.inner) }
    requires ordered { range.start ≤ range.«end» }
    requires in_range { range.«end» ≤ length ((repeats_format V.format).rows (viewed_repeats V.content view.inner)) }
    ensures counted { OnOk result ((r : Row) → range.start < range.«end» → slice_get ((repeats_format V.format).rows (viewed_repeats V.content view.entry.inner)) range.start ≡ Some r → ((repeats_format TC.format).rows (owned_repeats TC.content column.old.inner) ≡ [] → range.start ≢ 0) → length (TC.format.rows (TC.content column.new.inner.somes)) ≡ length (TC.format.rows (TC.content column.old.inner.somes)) + cond (last_is TC.format.kin ((repeats_format TC.format).rows (owned_repeats TC.content column.old.inner)) r) 0 1 + values_between ((options_format V.format).rows (viewed_repeats V.content view.entry.inner)) (range.start + 1) range.«end») }
    ensures front { OnOk result ((repeats_format TC.format).rows (owned_repeats TC.content column.old.inner) ≡ [] → range.start ≡ 0 → length (TC.format.rows (TC.content column.new.inner.somes)) ≡ values_between ((options_format V.format).rows (viewed_repeats V.content view.entry.inner)) 0 range.«end») }
{
    column.extend_from_self(view, range)
}

/// Pushes an item that may refer back: it stores the least distance at which one of the last `N` values is the same, or
/// one more value if there is none.
pub fn back_takes<T: Item + Drop, TC: Truncate + Push<T> + SameAs<T>, const N: u8>(
    column: &mut Lookbacks<TC, N>,
    item: T,
) -> Result<(), GrowError>
    requires sound { IsSound (lookbacks_format TC.format bytes_format) (owned_lookbacks TC.content column.old.inner) }
    requires valid { T.valid item }
    ensures stored { OnOk result (length (TC.format.rows (TC.content column.new.inner.oks)) ≡ length (TC.format.rows (TC.content column.old.inner.oks)) + cond (is_none (nearest TC.format.kin N (values_back TC.format (owned_lookbacks TC.content column.old.inner)) (T.meaning item))) 1 0) }
    ensures distance { OnOk result (IfSome (nearest TC.format.kin N (values_back TC.format (owned_lookbacks TC.content column.old.inner)) (T.meaning item)) (λ m. bytes_format.rows (elements (to_le_bytes w8) column.new.inner.errs.items) ≡ bytes_format.rows (elements (to_le_bytes w8) column.old.inner.errs.items) ++ number m ∷ [])) }
    ensures kept { OnOk result (kept_rows TC.format (owned_lookbacks TC.content column.new.inner) ≡ kept_rows TC.format (owned_lookbacks TC.content column.old.inner) ++ nearest TC.format.kin N (values_back TC.format (owned_lookbacks TC.content column.old.inner)) (T.meaning item) ∷ []) }
    ensures value { OnOk result (nearest TC.format.kin N (values_back TC.format (owned_lookbacks TC.content column.old.inner)) (T.meaning item) ≡ None → Took TC.format (TC.content column.old.inner.oks) (TC.content column.new.inner.oks) (T.meaning item ∷ [])) }
{
    column.push(item)
}

/// Does the same as `back_takes` with a reference.
pub fn back_takes_ref<T: Item, TC: Truncate + PushRef<T> + SameAs<T>, const N: u8>(
    column: &mut Lookbacks<TC, N>,
    item: &T,
) -> Result<(), GrowError>
    requires sound { IsSound (lookbacks_format TC.format bytes_format) (owned_lookbacks TC.content column.old.inner) }
    requires valid { T.valid item.now }
    ensures kept { OnOk result (kept_rows TC.format (owned_lookbacks TC.content column.new.inner) ≡ kept_rows TC.format (owned_lookbacks TC.content column.old.inner) ++ nearest TC.format.kin N (values_back TC.format (owned_lookbacks TC.content column.old.inner)) (T.meaning item.now) ∷ []) }
    ensures value { OnOk result (nearest TC.format.kin N (values_back TC.format (owned_lookbacks TC.content column.old.inner)) (T.meaning item.now) ≡ None → Took TC.format (TC.content column.old.inner.oks) (TC.content column.new.inner.oks) (T.meaning item.now ∷ [])) }
{
    column.push_ref(item)
}

/// Copies rows that may refer back: it stores what pushes of them in order would store. A range from row 0 that is
/// copied into a column without rows is stored as in the view.
pub fn back_copies<
    'x,
    V: Index + Copy,
    TC: ExtendFrom<V> + Push<V::Ref> + SameAs<V::Ref>,
    const N: u8,
>(
    column: &mut Lookbacks<TC, N>,
    view: Lookbacks<V, N, &'x [u8], View<'x, u64>, View<'x, u64>, View<'x, u64>>,
    range: Range<usize>,
) -> Result<(), GrowError>
    requires sound { IsSound (lookbacks_format TC.format bytes_format) (owned_lookbacks TC.content column.old.inner) }
    requires view_sound { IsSound (lookbacks_format V.format bytes_format) (viewed_lookbacks V.content view.inner.indexes view.inner.oks view.inner.errs.now) }
    requires ordered { range.start ≤ range.«end» }
    requires in_range { range.«end» ≤ length ((lookbacks_format V.format bytes_format).rows (viewed_lookbacks V.content view.inner.indexes view.inner.oks view.inner.errs.now)) }
    ensures kept { OnOk result (((lookbacks_format TC.format bytes_format).rows (owned_lookbacks TC.content column.old.inner) ≡ [] → range.start ≢ 0) → kept_rows TC.format (owned_lookbacks TC.content column.new.inner) ≡ kept_rows TC.format (owned_lookbacks TC.content column.old.inner) ++ nearest_each TC.format.kin N (values_back TC.format (owned_lookbacks TC.content column.old.inner)) (take (range.«end» - range.start) (drop range.start ((lookbacks_format V.format bytes_format).rows (viewed_lookbacks V.content view.entry.inner.indexes view.entry.inner.oks view.entry.inner.errs.now))))) }
    ensures front { OnOk result ((lookbacks_format TC.format bytes_format).rows (owned_lookbacks TC.content column.old.inner) ≡ [] → range.start ≡ 0 → kept_rows TC.format (owned_lookbacks TC.content column.new.inner) ≡ take (range.«end» - range.start) (drop range.start (kept_rows V.format (viewed_lookbacks V.content view.entry.inner.indexes view.entry.inner.oks view.entry.inner.errs.now)))) }
{
    column.extend_from_self(view, range)
}
