//! The measured work.
ghost use Rattle.std.specs.Prelude.{◌≡◌, ℕ, ◌<◌, ◌≤◌, length, IfOk, IfSome, IsTrue};
ghost use Rattle.columnar_base.specs.Format.{IsSound, both, part, part_format, representable};
ghost use Rattle.columnar_base.specs.Elements.{words_format};
ghost use Rattle.columnar_lists.specs.Lists.{lists_format};
ghost use Rattle.columnar_sums.specs.Discriminants.{discriminant_format, owned_forms, variants_of};
ghost use Rattle.columnar_sums.specs.RankColumns.{IsRanked};

use crate::amount::Amount;
use crate::plain::Plain;
use crate::types::Looked;
use columnar_base::fault::GrowError;
use columnar_base::storage::Storage;
use columnar_base::traits::{Column, Index, Len, Push, PushRef};
use columnar_base::view::View;
use columnar_bytes::indexed::{encode, validate, write};
use columnar_cells::items::{Field, SetItem};
use columnar_cells::lent::ValueMut;
use columnar_core::bytes::{AsBytes, Stored};
use columnar_core::container::ExtendFrom;
use columnar_core::offsets::Offsets;
use columnar_core::ordered::OrderedRow;
use columnar_core::slice::Slice;
use columnar_core::words::Words;
use columnar_lists::vector::Vecs;
use columnar_lists::walk::ListIter;
use columnar_operators::merge::merge;
use columnar_operators::select::{filter, take_checked};
use columnar_sums::discriminant::Discriminant;
use columnar_sums::rank_select::RankSelect;
use columnar_types::types::{Columnar, ContainerOf, FromRow};
use std::alloc::Global;

#[inline(never)]
pub fn push_values<T: Plain + Copy, C: Storage + Push<T>>(
    alloc: Global,
    items: &[T],
) -> Result<C, GrowError>
    ensures { IfOk result (λ c. IsSound C.format (C.content c)) }
{
    let mut column = C::empty(alloc);
    for item in items {
        column.push(*item)?;
    }
    Ok(column)
}

#[inline(never)]
pub fn push_refs<T: Plain, C: Storage + PushRef<T>>(
    alloc: Global,
    items: &[T],
) -> Result<C, GrowError>
    ensures { IfOk result (λ c. IsSound C.format (C.content c)) }
{
    let mut column = C::empty(alloc);
    for item in items {
        column.push_ref(item)?;
    }
    Ok(column)
}

#[inline(never)]
pub fn push_view<V: Index + Len, C: Storage + Push<V::Ref>>(
    alloc: Global,
    view: &V,
) -> Result<C, GrowError>
    requires { IsSound V.format (V.content view.now) }
    ensures { IfOk result (λ c. IsSound C.format (C.content c)) }
{
    let mut column = C::empty(alloc);
    for i in 0..view.len() {
        column.push(view.get(i))?;
    }
    Ok(column)
}

#[inline(never)]
pub fn sum<V: Len + Index<Ref: Amount>>(view: &V) -> u64
    requires { IsSound V.format (V.content view.now) }
{
    total(view)
}

// Does the same, but the caller may inline it.
fn total<V: Len + Index<Ref: Amount>>(view: &V) -> u64
    requires { IsSound V.format (V.content view.now) }
{
    let mut sum = 0u64;
    for i in 0..view.len() {
        sum = sum.wrapping_add(view.get(i).amount());
    }
    sum
}

/// Adds one to the number at each place that exists.
#[inline(never)]
pub fn add_each<C: ValueMut<Value = u64>>(column: &mut C, places: &[usize])
    requires { IsSound C.format (C.content column.old) }
    ensures { IsSound C.format (C.content column.new) }
{
    for place in places {
        if *place < column.len() {
            let value = column.value_mut(*place);
            *value = value.wrapping_add(1);
        }
    }
}

/// Writes the second field of the row at each place that exists.
#[inline(never)]
pub fn set_second_each<C: SetItem<Field<1>, u64>>(column: &mut C, places: &[usize])
    requires { IsSound C.format (C.content column.old) }
    ensures { IsSound C.format (C.content column.new) }
{
    for place in places {
        column.set_item_checked(*place, Field::<1>, *place as u64);
    }
}

#[inline(never)]
pub fn rank_each<CC: Words, VC: Words, WC: Words>(
    bits: &RankSelect<CC, VC, WC>,
    places: &[usize],
) -> u64
    requires { IsRanked CC.bytes VC.bytes WC.bytes bits.now }
{
    let len = bits.len();
    let mut sum = 0u64;
    for place in places {
        if *place <= len {
            sum = sum.wrapping_add(bits.rank(*place) as u64);
        }
    }
    sum
}

#[inline(never)]
pub fn rank_all<CC: Words, VC: Words, WC: Words>(bits: &RankSelect<CC, VC, WC>) -> u64
    requires { IsRanked CC.bytes VC.bytes WC.bytes bits.now }
{
    let mut sum = 0u64;
    for place in 0..bits.len() {
        sum = sum.wrapping_add(bits.rank(place) as u64);
    }
    sum
}

#[inline(never)]
pub fn select_each<CC: Words, VC: Words, WC: Words>(
    bits: &RankSelect<CC, VC, WC>,
    ranks: &[u64],
) -> u64
    requires { IsRanked CC.bytes VC.bytes WC.bytes bits.now }
{
    let mut sum = 0u64;
    for rank in ranks {
        if let Some(place) = bits.select(*rank) {
            sum = sum.wrapping_add(place as u64);
        }
    }
    sum
}

#[inline(never)]
pub fn next_ones<CC: Words, VC: Words, WC: Words>(bits: &RankSelect<CC, VC, WC>, ones: usize) -> u64
    requires { IsRanked CC.bytes VC.bytes WC.bytes bits.now }
{
    let mut cursor = bits.cursor();
    let mut sum = 0u64;
    for _turn in 0..ones {
        if let Some(place) = cursor.next_one() {
            sum = sum.wrapping_add(place as u64);
        }
    }
    sum
}

#[inline(never)]
pub fn steps<CC: Words, VC: Words, WC: Words>(bits: &RankSelect<CC, VC, WC>) -> u64
    requires { IsRanked CC.bytes VC.bytes WC.bytes bits.now }
{
    let mut cursor = bits.cursor();
    let mut sum = 0u64;
    for _turn in 0..bits.len() {
        if let Some(bit) = cursor.step() {
            sum = sum.wrapping_add(bit as u64);
        }
    }
    sum
}

#[inline(never)]
pub fn copy_part<V: Len + Copy, C: ExtendFrom<V>>(
    column: &mut C,
    view: V,
    start: usize,
    end: usize,
) -> bool
    requires sound { IsSound C.format (C.content column.old) }
    requires view_sound { IsSound V.format (V.content view) }
    ensures { IsSound C.format (C.content column.new) }
{
    if start > end || end > view.len() {
        return false;
    }
    column.extend_from_self(view, start..end).is_ok()
}

/// Returns a column of the rows start..end of a view.
pub fn copied<V: Len + Copy, C: Storage + ExtendFrom<V>>(
    alloc: Global,
    view: V,
    start: usize,
    end: usize,
) -> Option<C>
    requires { IsSound V.format (V.content view) }
    ensures { IfSome result (λ c. IsSound C.format (C.content c)) }
{
    let mut column = C::empty(alloc);
    if copy_part(&mut column, view, start, end) {
        Some(column)
    } else {
        None
    }
}

/// Does the same as `copied`, after the first `front` rows of the view.
pub fn copied_after<V: Len + Copy, C: Storage + ExtendFrom<V>>(
    alloc: Global,
    view: V,
    front: usize,
    start: usize,
    end: usize,
) -> Option<C>
    requires { IsSound V.format (V.content view) }
    ensures { IfSome result (λ c. IsSound C.format (C.content c)) }
{
    let mut column = C::empty(alloc);
    if copy_part(&mut column, view, 0, front) && copy_part(&mut column, view, start, end) {
        Some(column)
    } else {
        None
    }
}

#[inline(never)]
pub fn push_lists<V: Index + Len + Copy, C: Storage + Push<Slice<V>>>(
    alloc: Global,
    view: V,
    lists: &[(usize, usize)],
) -> Result<C, GrowError>
    requires { IsSound V.format (V.content view) }
    ensures { IfOk result (λ c. IsSound C.format (C.content c)) }
{
    let mut column = C::empty(alloc);
    let len = view.len();
    for list in lists {
        let (lower, upper) = *list;
        if lower <= upper && upper <= len {
            column.push(Slice::new(lower, upper, view))?;
        }
    }
    Ok(column)
}

#[inline(never)]
pub fn sum_lists<'a>(lists: &Vecs<View<'a, u64>, View<'a, u64>>) -> u64
    requires { IsSound (lists_format words_format words_format) (both (⟦<View<'a, u64> as Column>⟧.content lists.now.bounds) (⟦<View<'a, u64> as Column>⟧.content lists.now.values)) }
{
    let mut sum = 0u64;
    for i in 0..lists.len() {
        sum = sum.wrapping_add(total(&lists.get(i)));
    }
    sum
}

/// Returns the sum of all items of lists, list by list.
#[inline(never)]
pub fn walk_lists<V: Index<Ref: Amount> + Copy, W: Offsets + Drop>(lists: ListIter<V, W>) -> u64 {
    let mut sum = 0u64;
    for list in lists {
        sum = sum.wrapping_add(total(&list));
    }
    sum
}

/// Pushes each variant with the number of earlier rows of the same variant.
#[inline(never)]
pub fn push_variants(alloc: Global, variants: &[u8]) -> Result<Discriminant, GrowError>
    ensures sound { IfOk result (λ d. IsSound discriminant_format (owned_forms d.variant.items d.offset.items)) }
    ensures variants { IfOk result (λ d. variants_of (owned_forms d.variant.items d.offset.items) ≡ variants.now) }
{
    let mut column = Discriminant::empty(alloc);
    let mut counts = [0u64; 256];
    for variant in variants {
        let earlier = counts[*variant as usize];
        column.push(*variant, earlier)?;
        counts[*variant as usize] = earlier + 1;
    }
    Ok(column)
}

/// Returns the words of a column's encoding.
#[inline(never)]
pub fn encoded<'a, S: AsBytes<'a>>(alloc: Global, view: &S) -> Option<Vec<u64>>
    requires { IsTrue (representable S.format) }
{
    let mut words = Vec::new(alloc);
    encode(&mut words, view).ok()?;
    Some(words)
}

/// Returns the bytes of a column's encoding, written into a vector with capacity for `room` bytes.
#[inline(never)]
pub fn written<'a, S: AsBytes<'a>>(alloc: Global, view: &S, room: usize) -> Option<Vec<u8>>
    requires { IsTrue (representable S.format) }
{
    let mut bytes = Vec::new(alloc);
    bytes.reserve(room).ok()?;
    write(&mut bytes, view).ok()?;
    Some(bytes)
}

/// Returns 1 if the bytes are accepted, otherwise 0.
#[inline(never)]
pub fn validated<C: Stored>(bytes: &[u8]) -> u64
    requires { IsTrue (representable C.format) }
{
    validate::<C>(bytes).is_ok() as u64
}

/// Returns a column of the values of an iterator, made by their type.
#[inline(never)]
pub fn columns<T: Plain + Columnar<Container: Storage + PushRef<T>>>(
    alloc: Global,
    items: &[T],
) -> Result<ContainerOf<T>, GrowError>
    ensures { IfOk result (λ c. IsSound T.Container.format (T.Container.content c)) }
{
    T::as_columns(alloc, items.iter())
}

/// Makes a value of each row; returns `None` if one is refused.
#[inline(never)]
pub fn owned_each<T: FromRow<V::Ref> + Looked, V: Len + Index>(
    alloc: Global,
    view: &V,
) -> Option<u64>
    requires { IsSound V.format (V.content view.now) }
{
    let mut sum = 0u64;
    for i in 0..view.len() {
        let value = T::into_owned(alloc, view.get(i)).ok()?;
        sum = sum.wrapping_add(value.looked());
    }
    Some(sum)
}

/// Returns a column of the rows of a view at these places, in their order.
#[inline(never)]
pub fn taken<V: Len + Copy, C: Storage + ExtendFrom<V>>(
    alloc: Global,
    view: V,
    places: &[usize],
) -> Option<C>
    requires { IsSound V.format (V.content view) }
    ensures { IfSome result (λ c. IsSound C.format (C.content c)) }
{
    let mut column = C::empty(alloc);
    take_checked(&mut column, view, places).ok()?.ok()?;
    Some(column)
}

/// Returns a column of the rows of a view whose bit is set.
#[inline(never)]
pub fn filtered<V: Len + Copy, B: Index<Ref = bool> + Len, C: Storage + ExtendFrom<V>>(
    alloc: Global,
    view: V,
    bits: &B,
) -> Option<C>
    requires sound { IsSound V.format (V.content view) }
    requires bits { IsSound B.format (B.content bits.now) }
    ensures { IfSome result (λ c. IsSound C.format (C.content c)) }
{
    if bits.len() != view.len() {
        return None;
    }
    let mut column = C::empty(alloc);
    filter(&mut column, view, bits).ok()?;
    Some(column)
}

/// Returns a column of the rows of two views, merged.
#[inline(never)]
pub fn merged<V: Index<Ref: OrderedRow> + Len + Copy, C: Storage + ExtendFrom<V>>(
    alloc: Global,
    one: V,
    other: V,
) -> Option<C>
    requires one { IsSound V.format (V.content one) }
    requires other { IsSound V.format (V.content other) }
    ensures { IfSome result (λ c. IsSound C.format (C.content c)) }
{
    let mut column = C::empty(alloc);
    merge(&mut column, one, other).ok()?;
    Some(column)
}
