//! Functions on the two parts of a column of lists, the bounds and the values. A string is a list of bytes, so columns
//! of strings use them too.
ghost use Rattle.std.specs.Prelude.{◌≡◌, ℕ, ◌+◌, ◌-◌, ◌*◌, ◌^◌, ◌<◌, ◌≤◌, ◌∷◌, [], length, map, All, slice_get, Some, take, drop, IsTrue, OnOk, IfErr};
ghost use Rattle.columnar_base.specs.Row.{list, number};
ghost use Rattle.columnar_base.specs.Format.{both, bytes_held, first, moved, representable, IsSound};
ghost use Rattle.columnar_base.specs.Faults.{verdict};
ghost use Rattle.columnar_base.specs.Change.{Copied, Refused, Stayed, Took, WasCut};
ghost use Rattle.columnar_core.specs.Bounds.{numbers, last_or};
ghost use Rattle.columnar_base.specs.Room.{WasFull, Leaves, Frees, KeepsRoom};
ghost use Rattle.columnar_lists.specs.Lists.{lists_format};
ghost use Rattle.columnar_lists.specs.Rooms.{lists_room};

use columnar_base::fault::{GrowError, StoreFault};
use columnar_base::tally::Tally;
use columnar_base::traits::{Column, Index, Item, Len, PushRef};
use columnar_core::bytes::Check;
use columnar_core::container::{ExtendFrom, Reserve, Truncate};
use columnar_core::offsets::{ExtendShifted, Offsets, PushAfter, ReserveOffsets, StoredOffsets};
use columnar_core::two::check_two;
use std::ops::Range;

// Returns where list `index` starts.
fn start_of<BC: Offsets>(bounds: &BC, index: usize) -> u64
    requires sound { IsSound BC.format (BC.content bounds.now) }
    requires in_range { index ≤ length (BC.format.rows (BC.content bounds.now)) }
    ensures { slice_get (0 ∷ numbers (BC.format.rows (BC.content bounds.now))) index ≡ Some result }
{
    if index == 0 {
        0
    } else {
        bounds.offset(index - 1)
    }
}

/// Returns where list `index` starts, and where it ends.
///
/// # Requires
/// Well-formed bounds, and `index` below their length.
pub fn range_of<BC: Offsets>(bounds: &BC, index: usize) -> (usize, usize)
    requires sound { IsSound BC.format (BC.content bounds.now) }
    requires in_range { index < length (BC.format.rows (BC.content bounds.now)) }
    ensures lower { slice_get (0 ∷ numbers (BC.format.rows (BC.content bounds.now))) index ≡ Some result.0 }
    ensures upper { slice_get (BC.format.rows (BC.content bounds.now)) index ≡ Some (number result.1) }
{
    let lower = start_of(bounds, index);
    let upper = bounds.offset(index);
    (lower as usize, upper as usize)
}

/// Keeps the first `n` lists; allocates nothing.
///
/// # Requires
/// Well-formed parts with at least `n` lists.
pub fn cut_lists<TC: Truncate, BC: Truncate + Offsets>(bounds: &mut BC, values: &mut TC, n: usize)
    requires sound { IsSound (lists_format BC.format TC.format) (both (BC.content bounds.old) (TC.content values.old)) }
    requires in_range { n ≤ length ((lists_format BC.format TC.format).rows (both (BC.content bounds.old) (TC.content values.old))) }
    ensures cut { WasCut (lists_format BC.format TC.format) (both (BC.content bounds.old) (TC.content values.old)) (both (BC.content bounds.new) (TC.content values.new)) n }
    ensures freed { Frees (lists_format BC.format TC.format) (both (BC.content bounds.old) (TC.content values.old)) n (lists_room (BC.room bounds.old) (TC.room values.old) (length (TC.format.rows (TC.content values.old)))) (lists_room (BC.room bounds.new) (TC.room values.new) (length (TC.format.rows (TC.content values.new)))) }
{
    let end = start_of(bounds, n);
    values.truncate(end as usize);
    bounds.truncate(n);
}

/// Reserves capacity in both parts. The lists stay.
///
/// # Requires
/// Well-formed parts.
///
/// # Errors
/// `Memory`, and no other error.
pub fn reserve_lists<TC: Reserve, BC: ReserveOffsets>(
    bounds: &mut BC,
    values: &mut TC,
    room: (BC::Room, TC::Room),
) -> Result<(), GrowError>
    requires { IsSound (lists_format BC.format TC.format) (both (BC.content bounds.old) (TC.content values.old)) }
    ensures stayed { Stayed (lists_format BC.format TC.format) (both (BC.content bounds.old) (TC.content values.old)) (both (BC.content bounds.new) (TC.content values.new)) }
    ensures memory { IfErr result (λ e. e ≡ GrowError.Memory) }
    ensures room { OnOk result (BC.reserves × TC.reserves → KeepsRoom (lists_room (BC.covers room.0) (TC.covers room.1) 0) (lists_room (BC.room bounds.new) (TC.room values.new) (length (TC.format.rows (TC.content values.new))))) }
{
    bounds.reserve_room(room.0)?;
    values.reserve_room(room.1)
}

// Ends a list whose items follow the first `before` values. If the bounds refuse its end, it removes these items.
#[inline(always)]
pub(crate) fn end_list<TC: Truncate, BC: PushAfter>(
    bounds: &mut BC,
    values: &mut TC,
    before: usize,
) -> Result<(), GrowError>
    requires bounds { IsSound BC.format (BC.content bounds.old) }
    requires values { IsSound TC.format (TC.content values.old) }
    requires in_range { before ≤ length (TC.format.rows (TC.content values.old)) }
    requires last { last_or 0 (numbers (BC.format.rows (BC.content bounds.old))) ≡ before }
    ensures ok { OnOk result (Took BC.format (BC.content bounds.old) (BC.content bounds.new) (number (length (TC.format.rows (TC.content values.old))) ∷ []) × (TC.content values.new ≡ TC.content values.old)) }
    ensures err { IfErr result (λ e. Refused BC.format (BC.content bounds.old) (BC.content bounds.new) (number (length (TC.format.rows (TC.content values.old))) ∷ []) e × WasCut TC.format (TC.content values.old) (TC.content values.new) before) }
    ensures wanted { IfErr result (WasFull (BC.room bounds.old) (number (length (TC.format.rows (TC.content values.old))) ∷ [])) }
    ensures left { OnOk result (Leaves (BC.room bounds.old) (BC.room bounds.new) (number (length (TC.format.rows (TC.content values.old))) ∷ [])) }
    ensures values { OnOk result (KeepsRoom (TC.room values.old) (TC.room values.new)) }
{
    let end = values.len();
    match bounds.push_after(before as u64, end as u64) {
        Ok(()) => Ok(()),
        Err(error) => {
            values.truncate(before);
            Err(error)
        }
    }
}

/// Appends one list, of rows that represent the items.
///
/// # Requires
/// Well-formed parts, and valid items.
///
/// # Errors
/// As `Push::push`. The rows and the lengths of both parts stay.
#[inline(always)]
pub fn push_list<T: Item, TC: Truncate + PushRef<T>, BC: Offsets + PushAfter>(
    bounds: &mut BC,
    values: &mut TC,
    items: &[T],
) -> Result<(), GrowError>
    requires sound { IsSound (lists_format BC.format TC.format) (both (BC.content bounds.old) (TC.content values.old)) }
    requires valid { All T.valid items.now }
    ensures ok { OnOk result (Took (lists_format BC.format TC.format) (both (BC.content bounds.old) (TC.content values.old)) (both (BC.content bounds.new) (TC.content values.new)) (list (map T.meaning items.now) ∷ [])) }
    ensures err { IfErr result (λ e. Refused (lists_format BC.format TC.format) (both (BC.content bounds.old) (TC.content values.old)) (both (BC.content bounds.new) (TC.content values.new)) (list (map T.meaning items.now) ∷ []) e) }
    ensures wanted { T.unbuffered → IfErr result (WasFull (lists_room (BC.room bounds.old) (TC.room values.old) (length (TC.format.rows (TC.content values.old)))) (list (map T.meaning items.now) ∷ [])) }
    ensures left { OnOk result (Leaves (lists_room (BC.room bounds.old) (TC.room values.old) (length (TC.format.rows (TC.content values.old)))) (lists_room (BC.room bounds.new) (TC.room values.new) (length (TC.format.rows (TC.content values.new)))) (list (map T.meaning items.now) ∷ [])) }
{
    let before = values.len();
    values.push_slice(items)?;
    end_list(bounds, values, before)
}

/// Does what `copy_lists` does. Counts its steps over bounds in the tally: at most one for each list. Steps of bulk
/// copies are not counted: of values, and of bounds in unary, which are bits.
///
/// # Requires
/// As `copy_lists`.
///
/// # Errors
/// As `copy_lists`.
pub fn copy_lists_tallied<
    V: Column + Copy,
    W: Offsets,
    TC: ExtendFrom<V>,
    BC: ExtendShifted<W> + Offsets,
    L,
>(
    bounds: &mut BC,
    values: &mut TC,
    view: &W,
    items: V,
    range: Range<usize>,
    tally: &mut Tally<L>,
) -> Result<(), GrowError>
    requires sound { IsSound (lists_format BC.format TC.format) (both (BC.content bounds.old) (TC.content values.old)) }
    requires view_sound { IsSound (lists_format W.format V.format) (both (W.content view.now) (V.content items)) }
    requires ordered { range.start ≤ range.«end» }
    requires in_range { range.«end» ≤ length ((lists_format W.format V.format).rows (both (W.content view.now) (V.content items))) }
    ensures ok { OnOk result (Copied (lists_format BC.format TC.format) (both (BC.content bounds.old) (TC.content values.old)) (both (BC.content bounds.new) (TC.content values.new)) range.start (take (range.«end» - range.start) (drop range.start ((lists_format W.format V.format).rows (both (W.content view.now) (V.content items)))))) }
    ensures err { IfErr result (λ e. Refused (lists_format BC.format TC.format) (both (BC.content bounds.old) (TC.content values.old)) (both (BC.content bounds.new) (TC.content values.new)) (take (range.«end» - range.start) (drop range.start ((lists_format W.format V.format).rows (both (W.content view.now) (V.content items))))) e) }
    ensures wanted { IfErr result (WasFull (lists_room (BC.room bounds.old) (TC.room values.old) (length (TC.format.rows (TC.content values.old)))) (take (range.«end» - range.start) (drop range.start ((lists_format W.format V.format).rows (both (W.content view.now) (V.content items)))))) }
    ensures left { OnOk result (Leaves (lists_room (BC.room bounds.old) (TC.room values.old) (length (TC.format.rows (TC.content values.old)))) (lists_room (BC.room bounds.new) (TC.room values.new) (length (TC.format.rows (TC.content values.new)))) (take (range.«end» - range.start) (drop range.start ((lists_format W.format V.format).rows (both (W.content view.now) (V.content items)))))) }
    ensures turns { tally.new.turns ≤ tally.old.turns + (range.«end» - range.start) }
{
    let before = values.len();
    let lower = start_of(view, range.start);
    let upper = start_of(view, range.end);
    values.extend_from_self(items, lower as usize..upper as usize)?;
    // 64 bits can count the values, so they can hold the shifted bounds.
    let _end = values.len();
    match bounds.extend_shifted_tallied(view, range, lower, before, tally) {
        Ok(()) => Ok(()),
        Err(error) => {
            values.truncate(before);
            Err(error)
        }
    }
}

/// Appends lists that represent those of a view with bounds `view` and values `items`, or none. Copies the items at
/// once, then the end of each list. A front of the view, copied into an empty column, has equal rows.
///
/// # Requires
/// Well-formed parts and view, and a range of the view's lists.
///
/// # Errors
/// As `ExtendFrom::extend_from_self`. The rows and the lengths of both parts stay.
pub fn copy_lists<V: Column + Copy, W: Offsets, TC: ExtendFrom<V>, BC: ExtendShifted<W> + Offsets>(
    bounds: &mut BC,
    values: &mut TC,
    view: &W,
    items: V,
    range: Range<usize>,
) -> Result<(), GrowError>
    requires sound { IsSound (lists_format BC.format TC.format) (both (BC.content bounds.old) (TC.content values.old)) }
    requires view_sound { IsSound (lists_format W.format V.format) (both (W.content view.now) (V.content items)) }
    requires ordered { range.start ≤ range.«end» }
    requires in_range { range.«end» ≤ length ((lists_format W.format V.format).rows (both (W.content view.now) (V.content items))) }
    ensures ok { OnOk result (Copied (lists_format BC.format TC.format) (both (BC.content bounds.old) (TC.content values.old)) (both (BC.content bounds.new) (TC.content values.new)) range.start (take (range.«end» - range.start) (drop range.start ((lists_format W.format V.format).rows (both (W.content view.now) (V.content items)))))) }
    ensures err { IfErr result (λ e. Refused (lists_format BC.format TC.format) (both (BC.content bounds.old) (TC.content values.old)) (both (BC.content bounds.new) (TC.content values.new)) (take (range.«end» - range.start) (drop range.start ((lists_format W.format V.format).rows (both (W.content view.now) (V.content items))))) e) }
    ensures wanted { IfErr result (WasFull (lists_room (BC.room bounds.old) (TC.room values.old) (length (TC.format.rows (TC.content values.old)))) (take (range.«end» - range.start) (drop range.start ((lists_format W.format V.format).rows (both (W.content view.now) (V.content items)))))) }
    ensures left { OnOk result (Leaves (lists_room (BC.room bounds.old) (TC.room values.old) (length (TC.format.rows (TC.content values.old)))) (lists_room (BC.room bounds.new) (TC.room values.new) (length (TC.format.rows (TC.content values.new)))) (take (range.«end» - range.start) (drop range.start ((lists_format W.format V.format).rows (both (W.content view.now) (V.content items)))))) }
{
    copy_lists_tallied(bounds, values, view, items, range, &mut Tally::new())
}

/// Validates bounds and values as lists, with slices counted from `from` on. Counts its steps in the tally.
///
/// # Requires
/// A representable type, and slice numbers below 2^64.
///
/// # Errors
/// The first broken rule.
pub fn check_lists<TC: Check + Len, BC: Check + StoredOffsets + Offsets, L>(
    bounds: &BC,
    values: &TC,
    from: usize,
    tally: &mut Tally<L>,
) -> Result<(), StoreFault>
    requires representable { IsTrue (representable (lists_format BC.format TC.format)) }
    requires counted { from + (BC.format.count + TC.format.count) < 2 ^ 64 }
    ensures exact { verdict result ≡ first (moved from ((lists_format BC.format TC.format).broken (both (BC.content bounds.now) (TC.content values.now)))) }
    ensures turns { tally.new.turns ≤ tally.old.turns + 16 * bytes_held (both (BC.content bounds.now) (TC.content values.now)) }
{
    check_two(bounds, values, from, tally)?;
    let count = values.len();
    if bounds.rises_to_tallied(count as u64, tally) {
        Ok(())
    } else {
        Err(StoreFault::Bounds(from))
    }
}
