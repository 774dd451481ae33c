//! Column types that a store can have: those with at most 2^60 slices.
ghost use Rattle.std.specs.Prelude.{◌≡◌, ◌⊎◌, ◌+◌, ◌^◌, ◌<◌, ◌≤◌, ◌↔◌, length, IsOk, IfErr, IfSome, IfNone, IfOk, []};
ghost use Rattle.columnar_core.specs.Frame.{framed_slices};
ghost use Rattle.columnar_bytes.specs.Accepted.{Accepts, IsFirstFault};
ghost use Rattle.columnar_schema.specs.Formats.{format_of};
ghost use Rattle.columnar_syntax.specs.Declarations.{declared_in};
ghost use Rattle.columnar_syntax.specs.Names.{Declares, Names, a_type};
ghost use Rattle.columnar_syntax.specs.Reading.{NestsWithin};
ghost use Rattle.columnar_syntax.specs.Sources.{in_source};
ghost use Rattle.columnar_syntax.specs.Plain.{type_tokens};
ghost use Rattle.columnar_syntax.specs.declared.schema.Schema.{Schema};
ghost use Rattle.columnar_syntax.specs.declared.text.Mistake.TheVariants.{Memory, Undeclared};

use crate::bounds::bounds_slices;
use crate::judge::rows_of;
use crate::leaf::leaf_slices;
use crate::names::push_name;
use crate::validation::validate_schema;
use columnar_core::fault::StoreFault;
use columnar_core::store::DecodedStore;
use columnar_syntax::schema::{Bounds, Leaf, Schema};
use columnar_syntax::source::{parse, parse_declared};
use columnar_syntax::text::{Mistake, Refused};
use std::alloc::{AllocError, Global};

// Subtracts the number of slices of the type from `limit`; `None` if there are more.
#[tactic(auto, using(crate::specs::CountLaws::tuple_count, crate::specs::CountLaws::beside_count, crate::specs::CountLaws::first_counted, crate::specs::CountLaws::others_counted, crate::specs::CountLaws::field_counted, crate::specs::CountLaws::later_counted, crate::specs::BankLaws::sum_count, crate::specs::BankLaws::cases_counted))]
fn left_of(schema: &Schema, limit: usize) -> Option<usize>
    ensures some { IfSome result (λ n. (format_of schema.now).count + n ≡ limit) }
    ensures none { IfNone result (limit < (format_of schema.now).count) }
{
    match schema {
        Schema::Simple(leaf) => limit.checked_sub(leaf_slices(*leaf)),
        Schema::Optional(values) => left_of(values, limit.checked_sub(3)?),
        Schema::Fallible(values, errors) => {
            left_of(errors, left_of(values, limit.checked_sub(3)?)?)
        }
        Schema::Lists(bounds, values) => {
            left_of(values, limit.checked_sub(bounds_slices(*bounds))?)
        }
        Schema::Solo(_, field) => left_of(field, limit),
        Schema::Tuple(_, first, others) => left_of(others, left_of(first, limit)?),
        Schema::Beside(field, later) => left_of(later, left_of(field, limit)?),
        Schema::Field(_, part) => left_of(part, limit),
        Schema::Array(_, values) => left_of(values, limit.checked_sub(1)?),
        Schema::Repeated(values) => left_of(values, limit.checked_sub(3)?),
        Schema::Recalled(values) => left_of(values, limit.checked_sub(4)?),
        Schema::Sum(cases) => left_of(cases, limit.checked_sub(2)?),
        Schema::Named(_) => limit.checked_sub(leaf_slices(Leaf::Unit)),
        Schema::Case(_, _, part) => left_of(part, limit),
    }
}

/// A column type that is read at run time.
#[derive(Drop)]
pub struct Type {
    schema: Schema,
    ghost counted: { (format_of schema).count ≤ 2 ^ 60 },
}

impl Type {
    /// Checks the number of slices of a type.
    ///
    /// # Errors
    /// Returns the schema itself if it has more than 2^60 slices.
    pub fn new(schema: Schema) -> Result<Type, Schema>
        ensures ok { IfOk result (λ t. t.schema ≡ schema) }
        ensures same { IfErr result (λ s. s ≡ schema) }
        ensures err { IfErr result (λ s. 2 ^ 60 < (format_of s).count) }
    {
        if left_of(&schema, 1 << 60).is_some() {
            Ok(Type { schema })
        } else {
            Err(schema)
        }
    }

    /// Parses a type, as it may stand in a source file: comments, attributes that choose no column, and `pub` are
    /// passed over. `lists` chooses the bounds of `Vec<T>`. Every text that names a type is read, if its types nest at
    /// most 64 deep (an enum counts as four), its tuples and variants have at most ten fields, its structs ten, or a
    /// hundred with names, its enums at most 256 variants, and its arrays at most 2^64 - 1 items. A struct has the columns
    /// of the tuple of its fields, an enum a column for the values of each variant.
    ///
    /// # Errors
    /// The first mistake and its position. A type of more than 2^60 slices is `Deep`, at the end of the text; its text
    /// has more than 2^58 bytes.
    #[tactic(auto, using(crate::specs::SliceLaws::text_longer))]
    pub fn parse(alloc: Global, text: &[u8], lists: Bounds) -> Result<Type, Refused>
        ensures names { IfOk result (λ t. Names lists a_type (type_tokens text.now) t.schema) }
        ensures whole { (s : Schema) (n : Names lists a_type (type_tokens text.now) s) → NestsWithin 64 n → length text.now ≤ 2 ^ 58 → IfErr result (λ e. e.mistake ≡ Memory) }
    {
        match Type::new(parse(alloc, text, lists)?) {
            Ok(it) => Ok(it),
            Err(_) => Err(Refused {
                at: text.len(),
                mistake: Mistake::Deep,
            }),
        }
    }

    /// Parses the type of the first declaration of a name, `struct NAME` or `enum NAME`, in a source file. Its fields may
    /// name other structs and enums that the file declares, in any order; all else in the file is passed over. `lists` and
    /// the limits are those of `parse`. Each use of a name costs as much as its declaration, so a short file can name a
    /// very large type.
    ///
    /// # Errors
    /// The first mistake and its position in the file. `Undeclared` at the end of the file if it has no such declaration;
    /// `Deep` there for a type of more than 2^60 slices.
    pub fn parse_declared(
        alloc: Global,
        source: &[u8],
        name: &[u8],
        lists: Bounds,
    ) -> Result<Type, Refused>
        ensures names { IfOk result (λ t. Declares (in_source lists source.now) name.now t.schema) }
        ensures whole { (s : Schema) (d : Declares (in_source lists source.now) name.now s) → NestsWithin 64 d.names → IfErr result (λ e. (e.mistake ≡ Memory) ⊎ ((t : Schema) × (Declares (in_source lists source.now) name.now t × (2 ^ 60 < (format_of t).count)))) }
        ensures declared { IfErr result (λ e. e.mistake ≡ Undeclared → declared_in name.now (type_tokens source.now) ≡ []) }
    {
        match Type::new(parse_declared(alloc, source, name, lists)?) {
            Ok(it) => Ok(it),
            Err(_) => Err(Refused {
                at: source.len(),
                mistake: Mistake::Deep,
            }),
        }
    }

    /// Returns the type as a schema. It has at most 2^60 slices.
    pub fn schema(&self) -> &Schema
        ensures same { result.now ≡ self.now.schema }
        ensures counted { (format_of result.now).count ≤ 2 ^ 60 }
    {
        &self.schema
    }

    /// Tests whether the bytes frame a well-formed column of the type. Allocates nothing.
    ///
    /// # Errors
    /// The first broken rule, and its slice.
    pub fn validate(&self, bytes: &[u8]) -> Result<(), StoreFault>
        ensures exact { IsOk result ↔ Accepts (format_of self.now.schema) bytes.now }
        ensures fault { IfErr result (IsFirstFault (format_of self.now.schema) bytes.now) }
    {
        validate_schema(&self.schema, bytes)
    }

    /// Counts the rows of bytes that frame a well-formed column of the type. Allocates nothing.
    ///
    /// # Errors
    /// The first broken rule, and its slice.
    pub fn count_rows(&self, bytes: &[u8]) -> Result<usize, StoreFault>
        ensures exact { IsOk result ↔ Accepts (format_of self.now.schema) bytes.now }
        ensures rows { IfOk result (λ n. n ≡ length ((format_of self.now.schema).rows ((format_of self.now.schema).build (framed_slices bytes.now)))) }
        ensures fault { IfErr result (IsFirstFault (format_of self.now.schema) bytes.now) }
    {
        validate_schema(&self.schema, bytes)?;
        Ok(rows_of(&self.schema, &DecodedStore::new(bytes), 0))
    }

    /// Appends the name of a slice of the type to a text: the fields that lead to it, separated by points. The only
    /// slice of a column of numbers has an empty name.
    pub fn push_slice_name(&self, index: usize, name: &mut String) -> Result<(), AllocError> {
        push_name(&self.schema, index, 0, name)
    }
}
