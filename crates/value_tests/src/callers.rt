//! Callers that use only the contracts of a column of multiples: none of these functions has a proof file.
ghost use Rattle.std.specs.Prelude.{◌≡◌, ◌+◌, ◌-◌, ◌*◌, ◌≤◌, ◌↔◌, length, take, drop, Err, IfErr, OnOk, OnErr, IsTrue, IsFalse};
ghost use Rattle.columnar_core.specs.Format.{IsSound};
ghost use Rattle.columnar_primitive.specs.Fixed.{fixed_format, fixed_rows, passes, strays, IsLimit};
ghost use Rattle.columnar_primitive.specs.Held.{counted};

use columnar_core::container::ExtendFrom;
use columnar_core::fault::GrowError;
use columnar_core::traits::{Column, Push, PushRef};
use columnar_core::view::View;
use columnar_primitive::offsets::fixeds::Fixeds;
use std::ops::Range;

/// Pushes an offset: the count and the offset determine the error.
pub fn multiple_taken<const K: u64>(column: &mut Fixeds<K>, item: u64) -> Result<(), GrowError>
    requires { IsSound (fixed_format K) (counted column.old.count) }
    ensures limit { IfErr result IsLimit }
    ensures length { (result ≡ Err GrowError.Length) ↔ IsTrue (passes K (column.old.count + 1)) }
    ensures offset { (result ≡ Err GrowError.Offset) ↔ (IsFalse (passes K (column.old.count + 1)) × (item ≡ K * (column.old.count + 1) → ⊥)) }
{
    column.push(item)
}

/// Does the same as `multiple_taken` with a reference.
pub fn multiple_taken_ref<const K: u64>(column: &mut Fixeds<K>, item: &u64) -> Result<(), GrowError>
    requires { IsSound (fixed_format K) (counted column.old.count) }
    ensures limit { IfErr result IsLimit }
    ensures length { (result ≡ Err GrowError.Length) ↔ IsTrue (passes K (column.old.count + 1)) }
    ensures offset { (result ≡ Err GrowError.Offset) ↔ (IsFalse (passes K (column.old.count + 1)) × (item.now ≡ K * (column.old.count + 1) → ⊥)) }
{
    column.push_ref(item)
}

/// Copies a range of offsets: its contract says how many there are afterwards, and which error is returned.
pub fn multiples_copied<'x, const K: u64>(
    column: &mut Fixeds<K>,
    view: Fixeds<K, View<'x, u64>>,
    range: Range<usize>,
) -> Result<(), GrowError>
    requires sound { IsSound (fixed_format K) (counted column.old.count) }
    requires view_sound { IsSound (fixed_format K) (⟦<Fixeds<K, View<'x, u64>> as Column>⟧.content view) }
    requires ordered { range.start ≤ range.«end» }
    requires in_range { range.«end» ≤ length (fixed_rows K (⟦<Fixeds<K, View<'x, u64>> as Column>⟧.content view)) }
    ensures limit { IfErr result IsLimit }
    ensures count { OnOk result (column.new.count ≡ column.old.count + (range.«end» - range.start)) }
    ensures count_stays { OnErr result (column.new.count ≡ column.old.count) }
    ensures length { (result ≡ Err GrowError.Length) ↔ IsTrue (passes K (column.old.count + (range.«end» - range.start))) }
    ensures offset { (result ≡ Err GrowError.Offset) ↔ (IsFalse (passes K (column.old.count + (range.«end» - range.start))) × IsTrue (strays K column.old.count (take (range.«end» - range.start) (drop range.start (fixed_rows K (⟦<Fixeds<K, View<'x, u64>> as Column>⟧.content view.entry)))))) }
{
    column.extend_from_self(view, range)
}
