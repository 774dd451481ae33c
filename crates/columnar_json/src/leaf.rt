//! Rows without parts, read from a store in place.
ghost use Rattle.std.specs.Prelude.{◌≡◌, ◌+◌, ◌<◌, ◌≤◌, length, drop, slice_get, Some, IsTrue};
ghost use Rattle.columnar_base.specs.Format.{Fits, representable};
ghost use Rattle.columnar_core.specs.Store.{slices_in};
ghost use Rattle.columnar_schema.specs.Formats.{leaf_format};
ghost use Rattle.columnar_syntax.specs.declared.schema.Leaf.TheVariants.{Text};
ghost use Rattle.columnar_base.specs.Texts.{text_row};
ghost use Rattle.columnar_json.specs.Csv.{leaf_csv};
ghost use Rattle.columnar_json.specs.Json.{leaf_flaws, leaf_json, row_at};
ghost use Rattle.columnar_json.specs.Written.{WroteRow};

use crate::real::{push_double, push_finite_double, push_finite_single, push_single};
use crate::text::{
    push_bytes, push_character, push_duration, push_integer, push_large, push_large_integer,
    push_number, push_plain_character, push_plain_text, push_text, push_truth,
};
use crate::unwritten::Unwritten;
use columnar_bits::bools::Bools;
use columnar_core::bytes::FromBytes;
use columnar_core::store::DecodedStore;
use columnar_core::traits::Index;
use columnar_core::view::View;
use columnar_primitive::chars::Chars;
use columnar_primitive::durations::Durations;
use columnar_primitive::floats::{Doubles, Singles};
use columnar_primitive::larges::{I128s, U128s};
use columnar_primitive::numbers::{Isizes, Usizes};
use columnar_primitive::offsets::Strides;
use columnar_strings::string::Strings;
use columnar_sums::unaries::Unaries;
use columnar_syntax::schema::{Bounds, Leaf};

pub(crate) type Multiples<'a> = Strides<View<'a, u64>, View<'a, u64>>;

pub(crate) type Runs<'a> = Unaries<View<'a, u64>, View<'a, u64>, View<'a, u64>>;

// Returns row `index` of accepted slices.
pub(crate) fn row_in<'a, V: FromBytes<'a> + Index + Copy>(
    store: &DecodedStore<'a>,
    offset: usize,
    index: usize,
) -> V::Ref
    requires representable { IsTrue (representable V.format) }
    requires fits { Fits V.format offset (slices_in store.now) }
    requires in_range { index < length (V.format.rows (V.format.build (drop offset (slices_in store.now)))) }
    ensures row { slice_get (V.format.rows (V.format.build (drop offset (slices_in store.now)))) index ≡ Some (V.Ref.meaning result) }
    ensures valid { V.Ref.valid result }
{
    let mut at = offset;
    V::from_store(store, &mut at).get(index)
}

// Returns the bytes of a text in accepted slices.
fn text_at<'a>(bounds: Bounds, store: &DecodedStore<'a>, offset: usize, index: usize) -> &'a [u8]
    requires fits { Fits (leaf_format (Text bounds)) offset (slices_in store.now) }
    requires in_range { index < length ((leaf_format (Text bounds)).rows ((leaf_format (Text bounds)).build (drop offset (slices_in store.now)))) }
    ensures { slice_get ((leaf_format (Text bounds)).rows ((leaf_format (Text bounds)).build (drop offset (slices_in store.now)))) index ≡ Some (text_row result.now) }
{
    match bounds {
        Bounds::Words => row_in::<Strings<View<'a, u64>, &'a [u8]>>(store, offset, index),
        Bounds::Strides => row_in::<Strings<Multiples<'a>, &'a [u8]>>(store, offset, index),
        Bounds::Unaries => row_in::<Strings<Runs<'a>, &'a [u8]>>(store, offset, index),
    }
}

/// Appends the JSON text of row `index` of accepted slices.
///
/// # Requires
/// The slices from `offset` on were accepted for this type, and have this row.
///
/// # Errors
/// `NotText` for a text that is not UTF-8, or `Memory`. `out` then begins as before.
#[tactic(auto, using(crate::specs::WrittenLaws::wrote_plain))]
pub fn write_leaf(
    leaf: Leaf,
    store: &DecodedStore<'_>,
    offset: usize,
    index: usize,
    out: &mut Vec<u8>,
) -> Result<(), Unwritten>
    requires fits { Fits (leaf_format leaf) offset (slices_in store.now) }
    requires in_range { index < length ((leaf_format leaf).rows ((leaf_format leaf).build (drop offset (slices_in store.now)))) }
    ensures { WroteRow out.old.items out.new.items (leaf_json leaf (row_at ((leaf_format leaf).rows ((leaf_format leaf).build (drop offset (slices_in store.now)))) index)) (leaf_flaws leaf (row_at ((leaf_format leaf).rows ((leaf_format leaf).build (drop offset (slices_in store.now)))) index)) result }
{
    match leaf {
        Leaf::U8 => push_number(out, row_in::<View<'_, u8>>(store, offset, index) as u64),
        Leaf::U16 => push_number(out, row_in::<View<'_, u16>>(store, offset, index) as u64),
        Leaf::U32 => push_number(out, row_in::<View<'_, u32>>(store, offset, index) as u64),
        Leaf::U64 => push_number(out, row_in::<View<'_, u64>>(store, offset, index)),
        Leaf::U128 => push_large(
            out,
            row_in::<U128s<View<'_, [u8; 16]>>>(store, offset, index),
        ),
        Leaf::Usize => {
            push_number(
                out,
                row_in::<Usizes<View<'_, u64>>>(store, offset, index) as u64,
            )
        }
        Leaf::I8 => push_integer(out, row_in::<View<'_, i8>>(store, offset, index) as i64),
        Leaf::I16 => push_integer(out, row_in::<View<'_, i16>>(store, offset, index) as i64),
        Leaf::I32 => push_integer(out, row_in::<View<'_, i32>>(store, offset, index) as i64),
        Leaf::I64 => push_integer(out, row_in::<View<'_, i64>>(store, offset, index)),
        Leaf::I128 => {
            push_large_integer(
                out,
                row_in::<I128s<View<'_, [u8; 16]>>>(store, offset, index),
            )
        }
        Leaf::Isize => {
            push_integer(
                out,
                row_in::<Isizes<View<'_, i64>>>(store, offset, index) as i64,
            )
        }
        Leaf::F32 => push_single(out, row_in::<Singles<View<'_, u32>>>(store, offset, index)),
        Leaf::F64 => push_double(out, row_in::<Doubles<View<'_, u64>>>(store, offset, index)),
        Leaf::Bool => {
            push_truth(
                out,
                row_in::<Bools<View<'_, u64>, View<'_, u64>>>(store, offset, index),
            )
        }
        Leaf::Char => push_character(out, row_in::<Chars<View<'_, u32>>>(store, offset, index)),
        Leaf::Unit => push_bytes(out, b"null"),
        Leaf::Duration => {
            push_duration(
                out,
                row_in::<Durations<View<'_, u64>, View<'_, u32>>>(store, offset, index),
            )
        }
        Leaf::Text(bounds) => push_text(out, text_at(bounds, store, offset, index)),
    }
}

/// Appends row `index` of accepted slices as a value of CSV.
///
/// # Requires
/// The slices from `offset` on were accepted for this type, and have this row.
///
/// # Errors
/// `NotText` for a text that is not UTF-8, or `Memory`. `out` then begins as before.
#[tactic(auto, using(crate::specs::WrittenLaws::wrote_plain))]
pub fn write_plain(
    leaf: Leaf,
    store: &DecodedStore<'_>,
    offset: usize,
    index: usize,
    out: &mut Vec<u8>,
) -> Result<(), Unwritten>
    requires fits { Fits (leaf_format leaf) offset (slices_in store.now) }
    requires in_range { index < length ((leaf_format leaf).rows ((leaf_format leaf).build (drop offset (slices_in store.now)))) }
    ensures { WroteRow out.old.items out.new.items (leaf_csv leaf (row_at ((leaf_format leaf).rows ((leaf_format leaf).build (drop offset (slices_in store.now)))) index)) (leaf_flaws leaf (row_at ((leaf_format leaf).rows ((leaf_format leaf).build (drop offset (slices_in store.now)))) index)) result }
{
    match leaf {
        Leaf::F32 => push_finite_single(
            out,
            row_in::<Singles<View<'_, u32>>>(store, offset, index),
        ),
        Leaf::F64 => push_finite_double(
            out,
            row_in::<Doubles<View<'_, u64>>>(store, offset, index),
        ),
        Leaf::Char => push_plain_character(
            out,
            row_in::<Chars<View<'_, u32>>>(store, offset, index),
        ),
        Leaf::Unit => push_bytes(out, b""),
        Leaf::Text(bounds) => push_plain_text(out, text_at(bounds, store, offset, index)),
        _ => write_leaf(leaf, store, offset, index, out),
    }
}
