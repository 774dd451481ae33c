//! Copies of ranges of rows of a view of a sum type of two variants.
ghost use Rattle.std.specs.Prelude.{◌-◌, ◌≤◌, length, take, drop, OnOk, IfErr};
ghost use Rattle.columnar_core.specs.Format.{IsSound};
ghost use Rattle.columnar_core.specs.Change.{Copied, Refused};
ghost use Rattle.columnar_sums.specs.Discriminants.{forms_content, owned_forms};
ghost use Rattle.columnar_variants.specs.Duals.{dual_content, dual_format};

use crate::case::rows_before;
use crate::copy::extend_variants;
use columnar_core::container::{ExtendFrom, Truncate};
use columnar_core::fault::GrowError;
use columnar_core::traits::{Index, Len};
use columnar_core::words::Words;
use columnar_sums::discriminant::{Discriminant, Variants};
use std::ops::Range;

/// Copies the values of the range's rows for each variant, then the variants. If one of the three copies fails, all
/// three columns keep their old rows.
///
/// # Requires
/// The column and the view are well-formed, and the range is within the view.
pub fn extend_dual<
    V: Index + Len + Copy,
    W: Index + Len + Copy,
    SC: ExtendFrom<V>,
    TC: ExtendFrom<W>,
    CVar: Variants,
    COff: Words,
>(
    firsts: &mut SC,
    seconds: &mut TC,
    indexes: &mut Discriminant<Vec<u8>, Vec<u64>>,
    first_view: V,
    second_view: W,
    kinds: &Discriminant<CVar, COff>,
    range: Range<usize>,
) -> Result<(), GrowError>
    requires sound { IsSound (dual_format SC.format TC.format) (dual_content (SC.content firsts.old) (TC.content seconds.old) (owned_forms indexes.old.variant.items indexes.old.offset.items)) }
    requires view_sound { IsSound (dual_format V.format W.format) (dual_content (V.content first_view) (W.content second_view) (forms_content CVar.bytes COff.bytes kinds.now)) }
    requires ordered { range.start ≤ range.«end» }
    requires in_range { range.«end» ≤ length ((dual_format V.format W.format).rows (dual_content (V.content first_view) (W.content second_view) (forms_content CVar.bytes COff.bytes kinds.now))) }
    ensures ok { OnOk result (Copied (dual_format SC.format TC.format) (dual_content (SC.content firsts.old) (TC.content seconds.old) (owned_forms indexes.old.variant.items indexes.old.offset.items)) (dual_content (SC.content firsts.new) (TC.content seconds.new) (owned_forms indexes.new.variant.items indexes.new.offset.items)) range.start (take (range.«end» - range.start) (drop range.start ((dual_format V.format W.format).rows (dual_content (V.content first_view) (W.content second_view) (forms_content CVar.bytes COff.bytes kinds.now)))))) }
    ensures err { IfErr result (λ e. Refused (dual_format SC.format TC.format) (dual_content (SC.content firsts.old) (TC.content seconds.old) (owned_forms indexes.old.variant.items indexes.old.offset.items)) (dual_content (SC.content firsts.new) (TC.content seconds.new) (owned_forms indexes.new.variant.items indexes.new.offset.items)) (take (range.«end» - range.start) (drop range.start ((dual_format V.format W.format).rows (dual_content (V.content first_view) (W.content second_view) (forms_content CVar.bytes COff.bytes kinds.now))))) e) }
{
    let start = range.start;
    let end = range.end;
    let firsts_before = firsts.len();
    let seconds_before = seconds.len();
    let all_firsts = first_view.len();
    let all_seconds = second_view.len();
    let from_first = rows_before(kinds, 0, start, all_firsts);
    let to_first = rows_before(kinds, 0, end, all_firsts);
    let from_second = rows_before(kinds, 1, start, all_seconds);
    let to_second = rows_before(kinds, 1, end, all_seconds);
    firsts.extend_from_self(first_view, from_first..to_first)?;
    match seconds.extend_from_self(second_view, from_second..to_second) {
        Ok(()) => {}
        Err(error) => {
            firsts.truncate(firsts_before);
            return Err(error);
        }
    }
    let lengths = [firsts_before, seconds_before];
    let earlier = [from_first, from_second];
    match extend_variants(indexes, kinds, start, end, &lengths, &earlier) {
        Ok(()) => {}
        Err(error) => {
            firsts.truncate(firsts_before);
            seconds.truncate(seconds_before);
            return Err(error);
        }
    }
    Ok(())
}
