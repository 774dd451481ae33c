//! The rows of an accepted store.
ghost use Rattle.std.specs.Prelude.{◌≡◌, ◌<◌, ◌≤◌, ◌^◌, ◌↔◌, [], length, IsOk, IfOk, IfErr, OnOk, OnErr, Err};
ghost use Rattle.columnar_base.specs.Format.{Fits};
ghost use Rattle.columnar_core.specs.Frame.{framed_slices};
ghost use Rattle.columnar_core.specs.Store.{slices_in};
ghost use Rattle.columnar_bytes.specs.Accepted.{Accepted, Accepts, IsFirstFault};
ghost use Rattle.columnar_schema.specs.Formats.{format_of};
ghost use Rattle.columnar_json.specs.Json.{flaws_of, json_of, row_at};
ghost use Rattle.columnar_json.specs.Pieces.{Appended};
ghost use Rattle.columnar_json.specs.Stored.{stored_row, stored_rows};
ghost use Rattle.columnar_json.specs.Views.{flaws_by, text_by};
ghost use Rattle.columnar_json.specs.Written.{WroteRow};
ghost use Rattle.columnar_json.specs.declared.unwritten.Unwritten.TheVariants.{NoRow};

use crate::chosen::{write_chosen_record, write_object};
use crate::fields::write_record;
use crate::row::write_row;
use crate::unwritten::Unwritten;
use crate::view::{Form, View};
use columnar_core::fault::StoreFault;
use columnar_core::store::DecodedStore;
use columnar_schema::judge::rows_of;
use columnar_schema::typed::Type;
use columnar_schema::validation::validate_schema;
use columnar_syntax::schema::Schema;

/// The rows of a store that was accepted for a type. They are read in place.
#[derive(Clone, Copy)]
pub struct Rows<'a> {
    schema: &'a Schema,
    bytes: &'a [u8],
    count: usize,
    ghost counted: { (format_of schema.now).count ≤ 2 ^ 60 },
    ghost accepted: { Accepted (format_of schema.now) bytes.now },
    ghost rows: { count ≡ length (stored_rows schema.now (framed_slices bytes.now) 0) },
}

impl<'a> Rows<'a> {
    ghost use Rattle.columnar_json.specs.Refusals.{IsRefusal, IsRefusalBy, all_rows};

    /// Tests whether the bytes frame a well-formed column of the type, and returns its rows. Allocates nothing.
    ///
    /// # Errors
    /// The first broken rule, and its slice.
    pub fn open(kind: &'a Type, bytes: &'a [u8]) -> Result<Rows<'a>, StoreFault>
        ensures exact { IsOk result ↔ Accepts (format_of kind.now.schema) bytes.now }
        ensures same { IfOk result (λ r. (r.schema.now ≡ kind.now.schema) × (r.bytes.now ≡ bytes.now)) }
        ensures fault { IfErr result (IsFirstFault (format_of kind.now.schema) bytes.now) }
    {
        let schema = kind.schema();
        validate_schema(schema, bytes)?;
        let count = rows_of(schema, &DecodedStore::new(bytes), 0);
        Ok(Rows {
            schema,
            bytes,
            count,
        })
    }

    /// Returns the number of rows.
    pub fn len(&self) -> usize
        ensures { result ≡ length (all_rows self.now) }
    {
        self.count
    }

    /// Appends the JSON text of row `index`, as `serde_json` writes a value of the type. A finite float gets a short
    /// number that reads as the same float, any other float `null`. Allocates only in `out`.
    ///
    /// # Errors
    /// `NoRow` if and only if there is no such row. `NotText` if a text of the row is not UTF-8. `WrongLength`
    /// if an array of the row has another length than its type. `Memory`. `out` stays.
    pub fn write_row(&self, index: usize, out: &mut Vec<u8>) -> Result<(), Unwritten>
        ensures exact { OnOk result (Appended out.old.items out.new.items (json_of self.now.schema.now (row_at (all_rows self.now) index))) }
        ensures flawless { OnOk result (flaws_of self.now.schema.now (row_at (all_rows self.now) index) ≡ []) }
        ensures refused { IfErr result (IsRefusal self.now.schema.now (all_rows self.now) index) }
        ensures no_row { length (all_rows self.now) ≤ index → result ≡ Err NoRow }
        ensures stays { OnErr result (out.new.items ≡ out.old.items) }
    {
        if index >= self.count {
            return Err(Unwritten::NoRow);
        }
        let length = out.len();
        match write_row(self.schema, &DecodedStore::new(self.bytes), 0, index, out) {
            Ok(()) => Ok(()),
            Err(why) => {
                out.truncate(length);
                Err(why)
            }
        }
    }

    /// Appends what a view writes of row `index`. A float that is not finite is `null` in JSON, and nothing as a value of
    /// CSV. Allocates only in `out` and `value`, which is overwritten.
    ///
    /// # Errors
    /// As `write_row`. `out` stays.
    pub fn write_view(
        &self,
        view: &View<'_>,
        index: usize,
        value: &mut Vec<u8>,
        out: &mut Vec<u8>,
    ) -> Result<(), Unwritten>
        ensures exact { OnOk result (Appended out.old.items out.new.items (text_by view.now self.now.schema.now (row_at (all_rows self.now) index))) }
        ensures flawless { OnOk result (flaws_by view.now self.now.schema.now (row_at (all_rows self.now) index) ≡ []) }
        ensures refused { IfErr result (IsRefusalBy view.now self.now.schema.now (all_rows self.now) index) }
        ensures no_row { length (all_rows self.now) ≤ index → result ≡ Err NoRow }
        ensures stays { OnErr result (out.new.items ≡ out.old.items) }
    {
        if index >= self.count {
            return Err(Unwritten::NoRow);
        }
        let before = out.len();
        let store = DecodedStore::new(self.bytes);
        match write_line(view, self.schema, &store, index, value, out) {
            Ok(()) => Ok(()),
            Err(why) => {
                out.truncate(before);
                Err(why)
            }
        }
    }
}

// Appends what a view writes of a row of accepted slices. `value` is overwritten.
fn write_line(
    view: &View<'_>,
    schema: &Schema,
    store: &DecodedStore<'_>,
    index: usize,
    value: &mut Vec<u8>,
    out: &mut Vec<u8>,
) -> Result<(), Unwritten>
    requires counted { (format_of schema.now).count ≤ 2 ^ 60 }
    requires fits { Fits (format_of schema.now) 0 (slices_in store.now) }
    requires in_range { index < length (stored_rows schema.now (slices_in store.now) 0) }
    ensures { WroteRow out.old.items out.new.items (text_by view.now schema.now (stored_row schema.now (slices_in store.now) 0 index)) (flaws_by view.now schema.now (stored_row schema.now (slices_in store.now) 0 index)) result }
{
    match (view.fields, view.form) {
        (None, Form::Json) => write_row(schema, store, 0, index, out),
        (None, Form::Csv) => write_record(schema, store, 0, index, value, out),
        (Some(names), Form::Json) => write_object(names, schema, store, 0, index, value, out),
        (Some(names), Form::Csv) => write_chosen_record(names, schema, store, 0, index, value, out),
    }
}
