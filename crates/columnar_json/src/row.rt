//! Rows as JSON texts, read from a store in place.
ghost use Rattle.std.specs.Prelude.{◌≡◌, ◌∷◌, [], ◌+◌, ◌-◌, ◌<◌, ◌≤◌, ◌^◌, ◌++◌, length, drop, take, slice_get, Some, IsTrue, codes};
ghost use Rattle.columnar_base.specs.Elements.{bytes_format};
ghost use Rattle.columnar_base.specs.Format.{Fits, representable};
ghost use Rattle.columnar_base.specs.Row.{number, truth};
ghost use Rattle.columnar_core.specs.Bounds.{numbers};
ghost use Rattle.columnar_core.specs.Store.{slices_in};
ghost use Rattle.columnar_sums.specs.Counting.{ones};
ghost use Rattle.columnar_sums.specs.Discriminants.{discriminant_format, times, variants_of};
ghost use Rattle.columnar_sums.specs.RankColumns.{ranks_bits, ranks_format};
ghost use Rattle.columnar_schema.specs.Formats.{bank_of, bounds_format, format_of};
ghost use Rattle.columnar_json.specs.Json.{between, closing, flaws_as, flaws_of, json_as, json_of, opening, row_at, with_name};
ghost use Rattle.columnar_json.specs.Stored.{comma, items_flaws, items_json, stored_row, stored_rows, stored_values};
ghost use Rattle.columnar_json.specs.Pieces.{plain};
ghost use Rattle.columnar_json.specs.Written.{WroteRow};

use crate::leaf::{Multiples, Runs, row_in, write_leaf};
use crate::text::{push_bytes, push_quoted};
use crate::unwritten::Unwritten;
use columnar_core::bytes::FromBytes;
use columnar_core::offsets::Offsets;
use columnar_core::store::DecodedStore;
use columnar_core::traits::Index;
use columnar_core::view::View;
use columnar_lists::parts::range_of;
use columnar_schema::bounds::bounds_slices;
use columnar_schema::judge::slice_count_of;
use columnar_sums::discriminant::Discriminant;
use columnar_sums::rank_select::RankSelect;
use columnar_syntax::schema::{Bounds, Brackets, Schema};

// Returns whether bit `index` is set, and the number of set bits before it.
pub(crate) fn bit_at(store: &DecodedStore<'_>, offset: usize, index: usize) -> (bool, usize)
    requires fits { Fits ranks_format offset (slices_in store.now) }
    requires in_range { index < length (ranks_format.rows (ranks_format.build (drop offset (slices_in store.now)))) }
    ensures bit { slice_get (ranks_format.rows (ranks_format.build (drop offset (slices_in store.now)))) index ≡ Some (truth result.0) }
    ensures rank { result.1 ≡ ones (ranks_bits (ranks_format.build (drop offset (slices_in store.now)))) index }
{
    let mut at = offset;
    let bits = RankSelect::<View<'_, u64>, View<'_, u64>, View<'_, u64>>::from_store(
        store, &mut at,
    );
    (bits.get(index), bits.rank_in_turn(index))
}

// Returns row `index` of bytes, a distance.
pub(crate) fn distance_at(store: &DecodedStore<'_>, offset: usize, index: usize) -> usize
    requires fits { Fits bytes_format offset (slices_in store.now) }
    requires in_range { index < length (bytes_format.rows (bytes_format.build (drop offset (slices_in store.now)))) }
    ensures { slice_get (bytes_format.rows (bytes_format.build (drop offset (slices_in store.now)))) index ≡ Some (number result) }
{
    row_in::<View<'_, u8>>(store, offset, index) as usize
}

// Returns where list `index` begins, and where it ends.
fn range_in<'a, B: FromBytes<'a> + Offsets + Copy>(
    store: &DecodedStore<'a>,
    offset: usize,
    index: usize,
) -> (usize, usize)
    requires representable { IsTrue (representable B.format) }
    requires fits { Fits B.format offset (slices_in store.now) }
    requires in_range { index < length (B.format.rows (B.format.build (drop offset (slices_in store.now)))) }
    ensures lower { slice_get (0 ∷ numbers (B.format.rows (B.format.build (drop offset (slices_in store.now))))) index ≡ Some result.0 }
    ensures upper { slice_get (B.format.rows (B.format.build (drop offset (slices_in store.now)))) index ≡ Some (number result.1) }
{
    let mut at = offset;
    range_of(&B::from_store(store, &mut at), index)
}

// Does the same with bounds of this kind.
fn range_at(bounds: Bounds, store: &DecodedStore<'_>, offset: usize, index: usize) -> (usize, usize)
    requires fits { Fits (bounds_format bounds) offset (slices_in store.now) }
    requires in_range { index < length ((bounds_format bounds).rows ((bounds_format bounds).build (drop offset (slices_in store.now)))) }
    ensures lower { slice_get (0 ∷ numbers ((bounds_format bounds).rows ((bounds_format bounds).build (drop offset (slices_in store.now))))) index ≡ Some result.0 }
    ensures upper { slice_get ((bounds_format bounds).rows ((bounds_format bounds).build (drop offset (slices_in store.now)))) index ≡ Some (number result.1) }
{
    match bounds {
        Bounds::Words => range_in::<View<'_, u64>>(store, offset, index),
        Bounds::Strides => range_in::<Multiples<'_>>(store, offset, index),
        Bounds::Unaries => range_in::<Runs<'_>>(store, offset, index),
    }
}

// Appends the JSON text of a row between two others.
#[cycle(rows)]
fn write_between(
    schema: &Schema,
    store: &DecodedStore<'_>,
    offset: usize,
    index: usize,
    before: &[u8],
    after: &[u8],
    out: &mut Vec<u8>,
) -> Result<(), Unwritten>
    requires counted { (format_of schema.now).count ≤ 2 ^ 60 }
    requires fits { Fits (format_of schema.now) offset (slices_in store.now) }
    requires in_range { index < length (stored_rows schema.now (slices_in store.now) offset) }
    ensures { WroteRow out.old.items out.new.items (between before.now after.now (json_of schema.now (stored_row schema.now (slices_in store.now) offset index))) (flaws_of schema.now (stored_row schema.now (slices_in store.now) offset index)) result }
{
    push_bytes(out, before)?;
    write_row(schema, store, offset, index, out)?;
    push_bytes(out, after)
}

// Appends the JSON text of one field and those of the later ones, with commas between them.
#[cycle(rows)]
fn write_fields(
    field: &Schema,
    later: &Schema,
    store: &DecodedStore<'_>,
    offset: usize,
    index: usize,
    out: &mut Vec<u8>,
) -> Result<(), Unwritten>
    requires field_counted { (format_of field.now).count ≤ 2 ^ 60 }
    requires later_counted { (format_of later.now).count ≤ 2 ^ 60 }
    requires field_fits { Fits (format_of field.now) offset (slices_in store.now) }
    requires later_fit { Fits (format_of later.now) (offset + (format_of field.now).count) (slices_in store.now) }
    requires in_field { index < length (stored_rows field.now (slices_in store.now) offset) }
    requires in_later { index < length (stored_rows later.now (slices_in store.now) (offset + (format_of field.now).count)) }
    ensures { WroteRow out.old.items out.new.items (json_of field.now (stored_row field.now (slices_in store.now) offset index) ++ (plain (codes ",") ++ json_of later.now (stored_row later.now (slices_in store.now) (offset + (format_of field.now).count) index))) (flaws_of field.now (stored_row field.now (slices_in store.now) offset index) ++ flaws_of later.now (stored_row later.now (slices_in store.now) (offset + (format_of field.now).count) index)) result }
{
    write_row(field, store, offset, index, out)?;
    push_bytes(out, b",")?;
    write_row(later, store, offset + slice_count_of(field), index, out)
}

// Returns what stands before an item.
fn comma_unless(first: bool) -> &'static [u8]
    ensures { result.now ≡ comma first }
{
    if first { b"" } else { b"," }
}

// Returns what stands before the fields of a type.
fn before_fields(brackets: Brackets) -> &'static [u8]
    ensures { result.now ≡ opening brackets }
{
    match brackets {
        Brackets::Square => b"[",
        Brackets::Curly => b"{",
        Brackets::Bare => b"",
    }
}

// Returns what stands after the fields of a type.
fn after_fields(brackets: Brackets) -> &'static [u8]
    ensures { result.now ≡ closing brackets }
{
    match brackets {
        Brackets::Square => b"]",
        Brackets::Curly => b"}",
        Brackets::Bare => b"",
    }
}

// Appends the JSON texts of these rows, with commas between them.
#[cycle(rows)]
fn write_items(
    schema: &Schema,
    store: &DecodedStore<'_>,
    offset: usize,
    lower: usize,
    upper: usize,
    out: &mut Vec<u8>,
) -> Result<(), Unwritten>
    requires counted { (format_of schema.now).count ≤ 2 ^ 60 }
    requires fits { Fits (format_of schema.now) offset (slices_in store.now) }
    requires ordered { lower ≤ upper }
    requires in_range { upper ≤ length (stored_rows schema.now (slices_in store.now) offset) }
    ensures { WroteRow out.old.items out.new.items (items_json schema.now (stored_rows schema.now (slices_in store.now) offset) lower (upper - lower)) (items_flaws schema.now (stored_rows schema.now (slices_in store.now) offset) lower (upper - lower)) result }
{
    for i in lower..upper {
        let comma = comma_unless(i == lower);
        write_between(schema, store, offset, i, comma, b"", out)?;
    }
    Ok(())
}

// Returns the variant of row `index`, and the number of earlier rows that have it.
pub(crate) fn variant_at(store: &DecodedStore<'_>, offset: usize, index: usize) -> (usize, usize)
    requires fits { Fits discriminant_format offset (slices_in store.now) }
    requires in_range { index < length (discriminant_format.rows (discriminant_format.build (drop offset (slices_in store.now)))) }
    ensures variant { slice_get (variants_of (discriminant_format.build (drop offset (slices_in store.now)))) index ≡ Some result.0 }
    ensures earlier { result.1 ≡ times result.0 (take index (variants_of (discriminant_format.build (drop offset (slices_in store.now))))) }
{
    let mut at = offset;
    let forms = Discriminant::<&[u8], View<'_, u64>>::from_store(store, &mut at);
    let (variant, earlier) = forms.get(index);
    (variant as usize, earlier as usize)
}

// Appends the JSON text of value `index` of a variant.
#[cycle(rows)]
fn write_case(
    cases: &Schema,
    store: &DecodedStore<'_>,
    offset: usize,
    variant: usize,
    index: usize,
    out: &mut Vec<u8>,
) -> Result<(), Unwritten>
    requires counted { (format_of cases.now).count ≤ 2 ^ 60 }
    requires fits { Fits (format_of cases.now) offset (slices_in store.now) }
    requires known { variant < (bank_of cases.now).size }
    requires in_range { index < length (stored_values cases.now (slices_in store.now) offset variant) }
    ensures { WroteRow out.old.items out.new.items (json_as (Some variant) cases.now (row_at (stored_values cases.now (slices_in store.now) offset variant) index)) (flaws_as (Some variant) cases.now (row_at (stored_values cases.now (slices_in store.now) offset variant) index)) result }
{
    match cases {
        Schema::Beside(case, later) => {
            if variant == 0 {
                write_row(case, store, offset, index, out)
            } else {
                let after = offset + slice_count_of(case);
                write_case(later, store, after, variant - 1, index, out)
            }
        }
        _ => write_row(cases, store, offset, index, out),
    }
}

// Appends the name of a variant, and the JSON text of its value between brackets.
#[cycle(rows)]
fn write_value(
    name: &[u8],
    brackets: Brackets,
    part: &Schema,
    store: &DecodedStore<'_>,
    offset: usize,
    index: usize,
    out: &mut Vec<u8>,
) -> Result<(), Unwritten>
    requires counted { (format_of part.now).count ≤ 2 ^ 60 }
    requires fits { Fits (format_of part.now) offset (slices_in store.now) }
    requires in_range { index < length (stored_rows part.now (slices_in store.now) offset) }
    ensures { WroteRow out.old.items out.new.items (with_name name.now (between (opening brackets) (closing brackets) (json_of part.now (stored_row part.now (slices_in store.now) offset index)))) (flaws_of part.now (stored_row part.now (slices_in store.now) offset index)) result }
{
    push_quoted(out, name)?;
    push_bytes(out, b":")?;
    write_between(
        part,
        store,
        offset,
        index,
        before_fields(brackets),
        after_fields(brackets),
        out,
    )
}

/// Appends the JSON text of row `index` of a store. The row is read in place.
///
/// # Requires
/// The slices from `offset` on were accepted for this type, and have this row.
///
/// # Errors
/// The first flaw of the row, or `Memory`. `out` then begins as before.
#[cycle(rows)]
pub fn write_row(
    schema: &Schema,
    store: &DecodedStore<'_>,
    offset: usize,
    index: usize,
    out: &mut Vec<u8>,
) -> Result<(), Unwritten>
    requires counted { (format_of schema.now).count ≤ 2 ^ 60 }
    requires fits { Fits (format_of schema.now) offset (slices_in store.now) }
    requires in_range { index < length (stored_rows schema.now (slices_in store.now) offset) }
    ensures { WroteRow out.old.items out.new.items (json_of schema.now (stored_row schema.now (slices_in store.now) offset index)) (flaws_of schema.now (stored_row schema.now (slices_in store.now) offset index)) result }
{
    match schema {
        Schema::Simple(leaf) => write_leaf(*leaf, store, offset, index, out),
        Schema::Optional(values) => {
            let (present, at) = bit_at(store, offset, index);
            if present {
                write_row(values, store, offset + 3, at, out)
            } else {
                push_bytes(out, b"null")
            }
        }
        Schema::Fallible(values, errors) => {
            let (is_ok, at) = bit_at(store, offset, index);
            let start = offset + 3;
            if is_ok {
                write_between(values, store, start, at, b"{\"Ok\":", b"}", out)
            } else {
                let start = start + slice_count_of(values);
                write_between(errors, store, start, index - at, b"{\"Err\":", b"}", out)
            }
        }
        Schema::Lists(bounds, values) => {
            let (lower, upper) = range_at(*bounds, store, offset, index);
            push_bytes(out, b"[")?;
            write_items(
                values,
                store,
                offset + bounds_slices(*bounds),
                lower,
                upper,
                out,
            )?;
            push_bytes(out, b"]")
        }
        Schema::Solo(brackets, field) => write_between(
            field,
            store,
            offset,
            index,
            before_fields(*brackets),
            after_fields(*brackets),
            out,
        ),
        Schema::Tuple(brackets, first, others) => {
            push_bytes(out, before_fields(*brackets))?;
            write_fields(first, others, store, offset, index, out)?;
            push_bytes(out, after_fields(*brackets))
        }
        Schema::Beside(field, later) => write_fields(field, later, store, offset, index, out),
        Schema::Field(name, part) => {
            push_quoted(out, name.as_slice())?;
            write_between(part, store, offset, index, b":", b"", out)
        }
        Schema::Array(wanted, values) => {
            let (lower, upper) = range_at(Bounds::Words, store, offset, index);
            if upper - lower != *wanted {
                return Err(Unwritten::WrongLength);
            }
            push_bytes(out, b"[")?;
            write_items(values, store, offset + 1, lower, upper, out)?;
            push_bytes(out, b"]")
        }
        Schema::Repeated(values) => {
            let (is_value, before) = bit_at(store, offset, index);
            if is_value {
                write_row(values, store, offset + 3, before, out)
            } else {
                write_row(values, store, offset + 3, before - 1, out)
            }
        }
        Schema::Recalled(values) => {
            let (is_new, before) = bit_at(store, offset, index);
            if is_new {
                write_row(values, store, offset + 3, before, out)
            } else {
                let after = offset + 3 + slice_count_of(values);
                let back = distance_at(store, after, index - before);
                write_row(values, store, offset + 3, before - 1 - back, out)
            }
        }
        Schema::Sum(cases) => {
            let (variant, at) = variant_at(store, offset + slice_count_of(cases), index);
            write_case(cases, store, offset, variant, at, out)
        }
        Schema::Named(name) => push_quoted(out, name.as_slice()),
        Schema::Case(name, brackets, part) => {
            push_bytes(out, b"{")?;
            write_value(name.as_slice(), *brackets, part, store, offset, index, out)?;
            push_bytes(out, b"}")
        }
    }
}
