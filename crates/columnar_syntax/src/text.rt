//! Parser for the text of a type, such as `(u64, String, Option<u32>)`.
ghost use Rattle.std.specs.Prelude.{Err, ◌≡◌, ◌≢◌, ◌≤◌, ◌∷◌, ◌++◌, Bool, List, [], ℕ, length, drop, codes, IfOk, IfErr, IfSome, IfNone, true};
ghost use Rattle.columnar_syntax.specs.Declarations.{declared_in};
ghost use Rattle.columnar_syntax.specs.declared.text.Head.{Head};
ghost use Rattle.columnar_syntax.specs.Names.{Declares, GoesOn, IsUnknown, Names, NamesIn, Reads, Scope, among, scope_of, a_case, a_field, a_type, all_cases, all_fields, head_name, inside, is_name, last_comma, leaf_name, other_types, struct_body};
ghost use Rattle.columnar_syntax.specs.Reading.{NestsWithin, Passes, ReadsArray, ReadsBareValue, ReadsBody, ReadsCase, ReadsCases, ReadsDeclared, ReadsEnum, ReadsField, ReadsFields, ReadsNamed, ReadsNamedFields, ReadsNamedValue, ReadsObject, ReadsPart, ReadsParts, ReadsPlaces, ReadsRecalled, ReadsSolo, ReadsStruct, ReadsTexts, ReadsTuple, ReadsType, ReadsUnit};
ghost use Rattle.columnar_syntax.specs.Tokens.{marks, tokens};
ghost use Rattle.columnar_syntax.specs.declared.schema.Leaf.TheVariants.{Text};
ghost use Rattle.columnar_syntax.specs.declared.schema.Schema.{Schema};
ghost use Rattle.columnar_syntax.specs.declared.text.Mistake.TheVariants.{Memory, Twice, Undeclared};

use crate::declaration::declaration_of;
use crate::distinct::shares_name;
use crate::number::{after_limit, number_at};
use crate::parts::{
    array, beside, beside_case, beside_named, boxed, fallible, gathered, labelled, recalled, solo,
    sum, tuple, unvalued, value_of, valued,
};
use crate::scan::{after, after_blanks, name_at, past, stands_at, word_at};
use crate::schema::{Bounds, Brackets, Leaf, Schema};
use crate::words::leaf_of;
use std::alloc::Global;

/// The maximum nesting depth of types in a text. An enum, which may have many variants, counts as four types, and a name as
/// one more than its declaration.
pub const DEPTH: usize = 64;

/// Why a text is not a type.
#[derive(Clone, Copy, PartialEq, Drop)]
pub enum Mistake {
    /// There is no name at this position: of a type, a struct, an enum, a field or a variant.
    Name,
    /// This byte is expected at this position.
    Wanted(u8),
    /// The text continues after the type.
    Longer,
    /// A tuple or a variant has more than ten fields, a struct more than a hundred, or an enum more than 256 variants.
    Wide,
    /// Types are nested too deeply, as where a declared type contains itself.
    Deep,
    /// An allocation failed; the position is 0.
    Memory,
    /// There is no number at this position, or it is too large.
    Number,
    /// The name at this position stands again among the later fields or variants.
    Twice,
    /// A comment, an attribute or a quoted text has no end; the position is that of the end of the text.
    Unended,
    /// The source declares no struct and no enum with the name that was asked for; the position is the source's length.
    Undeclared,
}

/// A mistake in a text, and its position.
#[derive(Clone, Copy, PartialEq, Drop)]
pub struct Refused {
    /// The position of the first byte that cannot be parsed.
    pub at: usize,
    /// What is wrong there.
    pub mistake: Mistake,
}

// What a text is read with.
#[derive(Clone, Copy, PartialEq, Drop)]
struct Setting {
    // The bounds of `Vec<T>`.
    lists: Bounds,
    // Whether a word may stand for the type that the text declares with this name.
    by_name: bool,
}

// Returns the refusal of the name that follows the blanks, which stands again later.
fn twice(text: &[u8], at: usize) -> Refused
    requires { at ≤ length text.now }
    ensures { result.mistake ≡ Twice }
{
    Refused {
        at: after_blanks(text, at),
        mistake: Mistake::Twice,
    }
}

// Returns the position after the last field of a struct: after `}`, before which a comma may stand.
fn after_fields(text: &[u8], at: usize) -> Result<usize, Refused>
    requires { at ≤ length text.now }
    ensures within { IfOk result (λ n. n ≤ length text.now) }
    ensures stands { IfOk result (λ n. (c : Bool) × (tokens (drop at text.now) ≡ last_comma c ++ ((125 ∷ []) ∷ tokens (drop n text.now)))) }
    ensures passes { (c : Bool) (rest : List (List ℕ)) → tokens (drop at text.now) ≡ last_comma c ++ ((125 ∷ []) ∷ rest) → Passes result text.now rest }
    ensures mistake { IfErr result (λ e. e.mistake ≢ Undeclared) }
{
    match past(text, at, b',') {
        Some(next) => after(text, next, b'}'),
        None => after(text, at, b'}'),
    }
}

// The name before a type of one part.
#[derive(Clone, Copy, PartialEq, Drop)]
enum Head {
    // `Box`
    Boxed,
    // `Option`
    Optional,
    // `Vec`
    Vector,
    // `SmallVec`
    Small,
    // `Repeats`
    Repeats,
}

fn head_of(word: &[u8]) -> Option<Head>
    ensures some { IfSome result (λ h. word.now ≡ head_name h) }
    ensures none { IfNone result ((h : Head) → word.now ≢ head_name h) }
{
    if word == b"Box".as_slice() {
        Some(Head::Boxed)
    } else if word == b"Option".as_slice() {
        Some(Head::Optional)
    } else if word == b"Vec".as_slice() {
        Some(Head::Vector)
    } else if word == b"SmallVec".as_slice() {
        Some(Head::Small)
    } else if word == b"Repeats".as_slice() {
        Some(Head::Repeats)
    } else {
        None
    }
}

// Returns the bounds of texts with this name.
fn text_bounds(word: &[u8]) -> Option<Bounds>
    ensures some { IfSome result (λ b. inside (codes "Strings") (word.now ∷ []) ≡ tokens (leaf_name (Text b))) }
    ensures none { IfNone result ((word.now ≢ codes "Strides") × (word.now ≢ codes "Unaries")) }
{
    if word == b"Strides".as_slice() {
        Some(Bounds::Strides)
    } else if word == b"Unaries".as_slice() {
        Some(Bounds::Unaries)
    } else {
        None
    }
}

// Parses the rest of a type of texts, whose name ends at the position; returns it with the position after it.
#[tactic(auto, using(crate::specs::NameLaws::texts_go_on))]
fn texts_at(text: &[u8], at: usize) -> Result<(Schema, usize), Refused>
    requires { at ≤ length text.now }
    ensures names { IfOk result (λ p. (scope : Scope) → GoesOn scope a_type (codes "Strings" ∷ []) text.now at p.0 p.1) }
    ensures whole { ReadsTexts text.now (tokens (drop at text.now)) result }
    ensures mistake { IfErr result (λ e. e.mistake ≢ Undeclared) }
{
    let next = after(text, at, b'<')?;
    let (start, end) = word_at(text, next)?;
    let Some(bounds) = text_bounds(&text[start..end]) else {
        return Err(Refused {
            at: start,
            mistake: Mistake::Name,
        });
    };
    let next = after(text, end, b'>')?;
    Ok((Schema::Simple(Leaf::Text(bounds)), next))
}

// Returns the type with this part.
#[tactic(auto, using(crate::specs::NameLaws::boxed_named, crate::specs::NameLaws::optional_named, crate::specs::NameLaws::listed_named, crate::specs::NameLaws::numbered_named, crate::specs::NameLaws::repeated_named))]
fn wrap(alloc: Global, head: Head, setting: Setting, part: Schema) -> Result<Schema, Refused>
    ensures err { IfErr result (λ e. e.mistake ≡ Memory) }
    ensures ok { IfOk result (λ s. (text : List ℕ) (t : List (List ℕ)) → NamesIn (scope_of setting text) a_type t part → NamesIn (scope_of setting text) a_type (inside (head_name head) t) s) }
{
    match head {
        Head::Boxed => Ok(part),
        Head::Optional => Ok(Schema::Optional(boxed(alloc, part)?)),
        Head::Vector => Ok(Schema::Lists(setting.lists, boxed(alloc, part)?)),
        Head::Small => Ok(Schema::Lists(Bounds::Words, boxed(alloc, part)?)),
        Head::Repeats => Ok(Schema::Repeated(boxed(alloc, part)?)),
    }
}

// Parses the rest of a type of one part, whose name ends at the position; returns it with the position after it.
#[cycle(types)]
fn one_part(
    alloc: Global,
    text: &[u8],
    at: usize,
    head: Head,
    setting: Setting,
    depth: usize,
) -> Result<(Schema, usize), Refused>
    requires { at ≤ length text.now }
    ensures names { IfOk result (λ p. GoesOn (scope_of setting text.now) a_type (head_name head ∷ []) text.now at p.0 p.1) }
    ensures whole { ReadsPart (scope_of setting text.now) depth text.now (tokens (drop at text.now)) result }
    ensures mistake { IfErr result (λ e. e.mistake ≢ Undeclared) }
{
    let next = after(text, at, b'<')?;
    let (part, next) = type_at(alloc, text, next, setting, depth)?;
    let next = after(text, next, b'>')?;
    let schema = wrap(alloc, head, setting, part)?;
    Ok((schema, next))
}

// Parses the rest of a result type, whose name ends at the position; returns it with the position after it.
#[cycle(types)]
#[tactic(auto, using(crate::specs::NameLaws::result_goes_on))]
fn two_parts(
    alloc: Global,
    text: &[u8],
    at: usize,
    setting: Setting,
    depth: usize,
) -> Result<(Schema, usize), Refused>
    requires { at ≤ length text.now }
    ensures names { IfOk result (λ p. GoesOn (scope_of setting text.now) a_type (codes "Result" ∷ []) text.now at p.0 p.1) }
    ensures whole { ReadsParts (scope_of setting text.now) depth text.now (tokens (drop at text.now)) result }
    ensures mistake { IfErr result (λ e. e.mistake ≢ Undeclared) }
{
    let next = after(text, at, b'<')?;
    let (values, next) = type_at(alloc, text, next, setting, depth)?;
    let next = after(text, next, b',')?;
    let (errors, next) = type_at(alloc, text, next, setting, depth)?;
    let next = after(text, next, b'>')?;
    let schema = fallible(alloc, values, errors)?;
    Ok((schema, next))
}

// Parses the fields of a tuple from the second on, at most `most`; returns them with the position after them.
#[cycle(types)]
#[tactic(auto, using(crate::specs::NameLaws::fields_read, crate::specs::NameLaws::last_reads))]
fn fields_at(
    alloc: Global,
    text: &[u8],
    at: usize,
    setting: Setting,
    depth: usize,
    most: usize,
) -> Result<(Schema, usize), Refused>
    requires within { at ≤ length text.now }
    requires most { most ≤ 100 }
    ensures names { IfOk result (λ p. Reads (scope_of setting text.now) other_types text.now at p.0 p.1) }
    ensures whole { ReadsFields (scope_of setting text.now) depth most text.now (tokens (drop at text.now)) result }
    ensures mistake { IfErr result (λ e. e.mistake ≢ Undeclared) }
{
    if most == 0 {
        return Err(Refused {
            at,
            mistake: Mistake::Wide,
        });
    }
    let (field, next) = type_at(alloc, text, at, setting, depth)?;
    let Some(next) = past(text, next, b',') else {
        return Ok((field, next));
    };
    let (later, next) = fields_at(alloc, text, next, setting, depth, most - 1)?;
    let schema = beside(alloc, field, later)?;
    Ok((schema, next))
}

// Parses the tuple whose first field starts at the position; returns it with the position after it.
#[cycle(types)]
#[tactic(auto, using(crate::specs::NameLaws::unit_goes_on, crate::specs::NameLaws::solo_goes_on, crate::specs::NameLaws::tuple_goes_on))]
fn tuple_at(
    alloc: Global,
    text: &[u8],
    at: usize,
    setting: Setting,
    depth: usize,
) -> Result<(Schema, usize), Refused>
    requires { at ≤ length text.now }
    ensures names { IfOk result (λ p. GoesOn (scope_of setting text.now) a_type (marks (codes "(")) text.now at p.0 p.1) }
    ensures unit { ReadsUnit text.now (tokens (drop at text.now)) result }
    ensures solo { ReadsSolo (scope_of setting text.now) depth text.now (tokens (drop at text.now)) result }
    ensures whole { ReadsTuple (scope_of setting text.now) depth text.now (tokens (drop at text.now)) result }
    ensures mistake { IfErr result (λ e. e.mistake ≢ Undeclared) }
{
    if let Some(next) = past(text, at, b')') {
        return Ok((Schema::Simple(Leaf::Unit), next));
    }
    let (first, next) = type_at(alloc, text, at, setting, depth)?;
    let next = after(text, next, b',')?;
    if let Some(next) = past(text, next, b')') {
        let schema = solo(alloc, first)?;
        return Ok((schema, next));
    }
    let (others, next) = fields_at(alloc, text, next, setting, depth, 9)?;
    let next = after(text, next, b')')?;
    let schema = tuple(alloc, first, others)?;
    Ok((schema, next))
}

// Parses a field with its name; returns it with the position after it.
#[cycle(types)]
#[tactic(auto, using(crate::specs::NameLaws::field_read))]
fn field_at(
    alloc: Global,
    text: &[u8],
    at: usize,
    setting: Setting,
    depth: usize,
) -> Result<(Schema, usize), Refused>
    requires { at ≤ length text.now }
    ensures names { IfOk result (λ p. Reads (scope_of setting text.now) a_field text.now at p.0 p.1) }
    ensures whole { ReadsField (scope_of setting text.now) depth text.now (tokens (drop at text.now)) result }
    ensures mistake { IfErr result (λ e. e.mistake ≢ Undeclared) }
{
    let (start, end) = name_at(text, at)?;
    let next = after(text, end, b':')?;
    let (part, next) = type_at(alloc, text, next, setting, depth)?;
    let schema = labelled(alloc, &text[start..end], part)?;
    Ok((schema, next))
}

// Parses fields with their names, at most `most`; returns them with the position after them, before a last comma.
#[cycle(types)]
#[tactic(auto, using(crate::specs::NameLaws::last_field_reads, crate::specs::NameLaws::more_fields_read))]
fn named_fields_at(
    alloc: Global,
    text: &[u8],
    at: usize,
    setting: Setting,
    depth: usize,
    most: usize,
) -> Result<(Schema, usize), Refused>
    requires within { at ≤ length text.now }
    requires most { most ≤ 100 }
    ensures names { IfOk result (λ p. Reads (scope_of setting text.now) all_fields text.now at p.0 p.1) }
    ensures whole { ReadsNamedFields (scope_of setting text.now) depth most text.now (tokens (drop at text.now)) result }
    ensures mistake { IfErr result (λ e. e.mistake ≢ Undeclared) }
{
    if most == 0 {
        return Err(Refused {
            at,
            mistake: Mistake::Wide,
        });
    }
    let (field, next) = field_at(alloc, text, at, setting, depth)?;
    let Some(more) = past(text, next, b',') else {
        return Ok((field, next));
    };
    if stands_at(text, more, b'}') {
        return Ok((field, next));
    }
    let (later, next) = named_fields_at(alloc, text, more, setting, depth, most - 1)?;
    if shares_name(&field, &later) {
        return Err(twice(text, at));
    }
    let schema = beside_named(alloc, field, later)?;
    Ok((schema, next))
}

// Parses the fields of a struct after its `{`; returns it with the position after it.
#[cycle(types)]
fn object_at(
    alloc: Global,
    text: &[u8],
    at: usize,
    setting: Setting,
    depth: usize,
) -> Result<(Schema, usize), Refused>
    requires { at ≤ length text.now }
    ensures names { IfOk result (λ p. GoesOn (scope_of setting text.now) struct_body (marks (codes "{")) text.now at p.0 p.1) }
    ensures whole { ReadsObject (scope_of setting text.now) depth text.now (tokens (drop at text.now)) result }
    ensures mistake { IfErr result (λ e. e.mistake ≢ Undeclared) }
{
    let (all, next) = named_fields_at(alloc, text, at, setting, depth, 100)?;
    let next = after_fields(text, next)?;
    let schema = gathered(alloc, all, Brackets::Curly, Brackets::Curly)?;
    Ok((schema, next))
}

// Parses the fields of a struct without names after its `(`; returns it with the position after it.
#[cycle(types)]
fn places_at(
    alloc: Global,
    text: &[u8],
    at: usize,
    setting: Setting,
    depth: usize,
) -> Result<(Schema, usize), Refused>
    requires { at ≤ length text.now }
    ensures names { IfOk result (λ p. GoesOn (scope_of setting text.now) struct_body (marks (codes "(")) text.now at p.0 p.1) }
    ensures whole { ReadsPlaces (scope_of setting text.now) depth text.now (tokens (drop at text.now)) result }
    ensures mistake { IfErr result (λ e. e.mistake ≢ Undeclared) }
{
    let (all, next) = fields_at(alloc, text, at, setting, depth, 10)?;
    let next = after(text, next, b')')?;
    let next = after(text, next, b';')?;
    let schema = gathered(alloc, all, Brackets::Bare, Brackets::Square)?;
    Ok((schema, next))
}

// Parses what follows the name of a struct; returns its type with the position after it.
#[cycle(types)]
#[tactic(auto, using(crate::specs::NameLaws::begun_read, crate::specs::NameLaws::nothing_read))]
fn body_at(
    alloc: Global,
    text: &[u8],
    at: usize,
    setting: Setting,
    depth: usize,
) -> Result<(Schema, usize), Refused>
    requires { at ≤ length text.now }
    ensures names { IfOk result (λ p. Reads (scope_of setting text.now) struct_body text.now at p.0 p.1) }
    ensures whole { ReadsBody (scope_of setting text.now) depth text.now (tokens (drop at text.now)) result }
    ensures mistake { IfErr result (λ e. e.mistake ≢ Undeclared) }
{
    if let Some(next) = past(text, at, b'{') {
        return object_at(alloc, text, next, setting, depth);
    }
    if let Some(next) = past(text, at, b'(') {
        return places_at(alloc, text, next, setting, depth);
    }
    let next = after(text, at, b';')?;
    Ok((Schema::Simple(Leaf::Unit), next))
}

// Parses the rest of a struct after `struct`; returns its type with the position after it.
#[cycle(types)]
#[tactic(auto, using(crate::specs::NameLaws::struct_goes_on))]
fn struct_at(
    alloc: Global,
    text: &[u8],
    at: usize,
    setting: Setting,
    depth: usize,
) -> Result<(Schema, usize), Refused>
    requires { at ≤ length text.now }
    ensures names { IfOk result (λ p. GoesOn (scope_of setting text.now) a_type (codes "struct" ∷ []) text.now at p.0 p.1) }
    ensures whole { ReadsStruct (scope_of setting text.now) depth text.now (tokens (drop at text.now)) result }
    ensures mistake { IfErr result (λ e. e.mistake ≢ Undeclared) }
{
    let (_start, end) = name_at(text, at)?;
    body_at(alloc, text, end, setting, depth)
}

// Parses the fields of a variant without names after its `(`; returns the variant with the position after it.
#[cycle(types)]
fn bare_value_at(
    alloc: Global,
    text: &[u8],
    name: &[u8],
    at: usize,
    setting: Setting,
    depth: usize,
) -> Result<(Schema, usize), Refused>
    requires within { at ≤ length text.now }
    requires name { is_name name.now ≡ true }
    ensures names { IfOk result (λ p. GoesOn (scope_of setting text.now) a_case (name.now ∷ marks (codes "(")) text.now at p.0 p.1) }
    ensures whole { ReadsBareValue (scope_of setting text.now) depth text.now name.now (tokens (drop at text.now)) result }
    ensures mistake { IfErr result (λ e. e.mistake ≢ Undeclared) }
{
    let (all, next) = fields_at(alloc, text, at, setting, depth, 10)?;
    let next = after(text, next, b')')?;
    let value = value_of(all, Brackets::Square);
    let schema = valued(alloc, name, Brackets::Bare, value)?;
    Ok((schema, next))
}

// Parses the fields of a variant with names after its `{`; returns the variant with the position after it.
#[cycle(types)]
fn named_value_at(
    alloc: Global,
    text: &[u8],
    name: &[u8],
    at: usize,
    setting: Setting,
    depth: usize,
) -> Result<(Schema, usize), Refused>
    requires within { at ≤ length text.now }
    requires name { is_name name.now ≡ true }
    ensures names { IfOk result (λ p. GoesOn (scope_of setting text.now) a_case (name.now ∷ marks (codes "{")) text.now at p.0 p.1) }
    ensures whole { ReadsNamedValue (scope_of setting text.now) depth text.now name.now (tokens (drop at text.now)) result }
    ensures mistake { IfErr result (λ e. e.mistake ≢ Undeclared) }
{
    let (all, next) = named_fields_at(alloc, text, at, setting, depth, 10)?;
    let next = after_fields(text, next)?;
    let value = value_of(all, Brackets::Bare);
    let schema = valued(alloc, name, Brackets::Curly, value)?;
    Ok((schema, next))
}

// Parses a variant; returns it with the position after it.
#[cycle(types)]
#[tactic(auto, using(crate::specs::CaseNameLaws::case_begun, crate::specs::CaseNameLaws::case_bare))]
fn case_at(
    alloc: Global,
    text: &[u8],
    at: usize,
    setting: Setting,
    depth: usize,
) -> Result<(Schema, usize), Refused>
    requires { at ≤ length text.now }
    ensures names { IfOk result (λ p. Reads (scope_of setting text.now) a_case text.now at p.0 p.1) }
    ensures whole { ReadsCase (scope_of setting text.now) depth text.now (tokens (drop at text.now)) result }
    ensures mistake { IfErr result (λ e. e.mistake ≢ Undeclared) }
{
    let (start, end) = name_at(text, at)?;
    let name = &text[start..end];
    if let Some(next) = past(text, end, b'(') {
        return bare_value_at(alloc, text, name, next, setting, depth);
    }
    if let Some(next) = past(text, end, b'{') {
        return named_value_at(alloc, text, name, next, setting, depth);
    }
    Ok((unvalued(alloc, name)?, end))
}

// Parses variants, at most `most`; returns them with the position after them, before a last comma.
#[cycle(types)]
#[tactic(auto, using(crate::specs::CaseNameLaws::last_case_reads, crate::specs::CaseNameLaws::more_cases_read))]
fn cases_at(
    alloc: Global,
    text: &[u8],
    at: usize,
    setting: Setting,
    depth: usize,
    most: usize,
) -> Result<(Schema, usize), Refused>
    requires within { at ≤ length text.now }
    requires most { most ≤ 256 }
    ensures names { IfOk result (λ p. Reads (scope_of setting text.now) all_cases text.now at p.0 p.1) }
    ensures whole { ReadsCases (scope_of setting text.now) depth most text.now (tokens (drop at text.now)) result }
    ensures mistake { IfErr result (λ e. e.mistake ≢ Undeclared) }
{
    if most == 0 {
        return Err(Refused {
            at,
            mistake: Mistake::Wide,
        });
    }
    let (case, next) = case_at(alloc, text, at, setting, depth)?;
    let Some(more) = past(text, next, b',') else {
        return Ok((case, next));
    };
    if stands_at(text, more, b'}') {
        return Ok((case, next));
    }
    let (later, next) = cases_at(alloc, text, more, setting, depth, most - 1)?;
    if shares_name(&case, &later) {
        return Err(twice(text, at));
    }
    let schema = beside_case(alloc, case, later)?;
    Ok((schema, next))
}

// Parses the rest of an enum after `enum`; returns its type with the position after it.
#[cycle(types)]
#[tactic(auto, using(crate::specs::CaseNameLaws::enum_goes_on))]
fn enum_at(
    alloc: Global,
    text: &[u8],
    at: usize,
    setting: Setting,
    depth: usize,
) -> Result<(Schema, usize), Refused>
    requires { at ≤ length text.now }
    ensures names { IfOk result (λ p. GoesOn (scope_of setting text.now) a_type (codes "enum" ∷ []) text.now at p.0 p.1) }
    ensures whole { ReadsEnum (scope_of setting text.now) depth text.now (tokens (drop at text.now)) result }
    ensures mistake { IfErr result (λ e. e.mistake ≢ Undeclared) }
{
    let (_start, end) = name_at(text, at)?;
    let next = after(text, end, b'{')?;
    let (all, next) = cases_at(alloc, text, next, setting, depth, 256)?;
    let next = after_fields(text, next)?;
    let schema = sum(alloc, all)?;
    Ok((schema, next))
}

// Parses the array whose items' type starts at the position; returns it with the position after it.
#[cycle(types)]
fn array_at(
    alloc: Global,
    text: &[u8],
    at: usize,
    setting: Setting,
    depth: usize,
) -> Result<(Schema, usize), Refused>
    requires { at ≤ length text.now }
    ensures names { IfOk result (λ p. GoesOn (scope_of setting text.now) a_type (marks (codes "[")) text.now at p.0 p.1) }
    ensures whole { ReadsArray (scope_of setting text.now) depth text.now (tokens (drop at text.now)) result }
    ensures mistake { IfErr result (λ e. e.mistake ≢ Undeclared) }
{
    let (part, next) = type_at(alloc, text, at, setting, depth)?;
    let next = after(text, next, b';')?;
    let (items, next) = number_at(text, next, usize::MAX)?;
    let next = after(text, next, b']')?;
    let schema = array(alloc, items, part)?;
    Ok((schema, next))
}

// Parses the rest of a type of lookbacks, whose name ends at the position; returns it with the position after it.
#[cycle(types)]
fn lookbacks_at(
    alloc: Global,
    text: &[u8],
    at: usize,
    setting: Setting,
    depth: usize,
) -> Result<(Schema, usize), Refused>
    requires { at ≤ length text.now }
    ensures names { IfOk result (λ p. GoesOn (scope_of setting text.now) a_type (codes "Lookbacks" ∷ []) text.now at p.0 p.1) }
    ensures whole { ReadsRecalled (scope_of setting text.now) depth text.now (tokens (drop at text.now)) result }
    ensures mistake { IfErr result (λ e. e.mistake ≢ Undeclared) }
{
    let next = after(text, at, b'<')?;
    let (part, next) = type_at(alloc, text, next, setting, depth)?;
    let next = after_limit(text, next)?;
    let next = after(text, next, b'>')?;
    let schema = recalled(alloc, part)?;
    Ok((schema, next))
}

// Returns the position of the declaration that the word stands for, if it may stand for one.
fn declaration_for(text: &[u8], word: &[u8], setting: Setting) -> Option<usize>
    ensures within { IfSome result (λ n. n ≤ length text.now) }
    ensures some { IfSome result (λ n. tokens (drop n text.now) ≡ declared_in word.now (scope_of setting text.now).source) }
    ensures none { IfNone result (declared_in word.now (scope_of setting text.now).source ≡ []) }
{
    if setting.by_name {
        declaration_of(text, word)
    } else {
        None
    }
}

// Parses the declaration of the word, which ends at the position; returns its type with the position after the word.
#[cycle(types)]
#[tactic(auto, using(crate::specs::NameLaws::declared_goes_on))]
fn declared_at(
    alloc: Global,
    text: &[u8],
    word: &[u8],
    at: usize,
    setting: Setting,
    depth: usize,
) -> Result<(Schema, usize), Refused>
    requires within { at ≤ length text.now }
    requires name { is_name word.now ≡ true }
    requires unknown { IsUnknown word.now }
    ensures names { IfOk result (λ p. GoesOn (scope_of setting text.now) a_type (word.now ∷ []) text.now at p.0 p.1) }
    ensures whole { ReadsDeclared (scope_of setting text.now) depth text.now word.now (tokens (drop at text.now)) result }
    ensures mistake { IfErr result (λ e. e.mistake ≢ Undeclared) }
{
    let Some(start) = declaration_for(text, word, setting) else {
        return Err(Refused {
            at: at.saturating_sub(word.len()),
            mistake: Mistake::Name,
        });
    };
    let (schema, _end) = type_at(alloc, text, start, setting, depth)?;
    Ok((schema, at))
}

// Parses the rest of the type with this name, which ends at the position; returns it with the position after it.
#[cycle(types)]
#[tactic(auto, using(crate::specs::NameLaws::leaf_goes_on))]
fn named(
    alloc: Global,
    text: &[u8],
    word: &[u8],
    at: usize,
    setting: Setting,
    depth: usize,
) -> Result<(Schema, usize), Refused>
    requires within { at ≤ length text.now }
    requires name { is_name word.now ≡ true }
    ensures names { IfOk result (λ p. GoesOn (scope_of setting text.now) a_type (word.now ∷ []) text.now at p.0 p.1) }
    ensures whole { ReadsNamed (scope_of setting text.now) depth text.now word.now (tokens (drop at text.now)) result }
    ensures mistake { IfErr result (λ e. e.mistake ≢ Undeclared) }
{
    if let Some(leaf) = leaf_of(word) {
        return Ok((Schema::Simple(leaf), at));
    }
    if let Some(head) = head_of(word) {
        return one_part(alloc, text, at, head, setting, depth);
    }
    if word == b"Result".as_slice() {
        return two_parts(alloc, text, at, setting, depth);
    }
    if word == b"Strings".as_slice() {
        return texts_at(text, at);
    }
    if word == b"struct".as_slice() {
        return struct_at(alloc, text, at, setting, depth);
    }
    if word == b"Lookbacks".as_slice() {
        return lookbacks_at(alloc, text, at, setting, depth);
    }
    if word == b"enum".as_slice() {
        return enum_at(alloc, text, at, setting, depth.saturating_sub(3));
    }
    declared_at(alloc, text, word, at, setting, depth)
}

// Parses the type at the position; returns it with the position after it. Types may be nested `depth` deep.
#[cycle(types)]
fn type_at(
    alloc: Global,
    text: &[u8],
    at: usize,
    setting: Setting,
    depth: usize,
) -> Result<(Schema, usize), Refused>
    requires { at ≤ length text.now }
    ensures names { IfOk result (λ p. Reads (scope_of setting text.now) a_type text.now at p.0 p.1) }
    ensures whole { ReadsType (scope_of setting text.now) depth text.now (tokens (drop at text.now)) result }
    ensures mistake { IfErr result (λ e. e.mistake ≢ Undeclared) }
{
    let at = after_blanks(text, at);
    if depth == 0 {
        return Err(Refused {
            at,
            mistake: Mistake::Deep,
        });
    }
    if let Some(next) = past(text, at, b'(') {
        return tuple_at(alloc, text, next, setting, depth - 1);
    }
    if let Some(next) = past(text, at, b'[') {
        return array_at(alloc, text, next, setting, depth - 1);
    }
    let (start, end) = name_at(text, at)?;
    named(alloc, text, &text[start..end], end, setting, depth - 1)
}

/// Parses a type. Blanks may separate its words. `lists` chooses the bounds of `Vec<T>`: `Bounds::Unaries` is this
/// library's choice, `Bounds::Words` that of the Rust crate.
///
/// # Errors
/// The first mistake and its position.
pub fn parse(alloc: Global, text: &[u8], lists: Bounds) -> Result<Schema, Refused>
    ensures names { IfOk result (λ s. Names lists a_type (tokens text.now) s) }
    ensures whole { (s : Schema) (n : Names lists a_type (tokens text.now) s) → NestsWithin 64 n → IfErr result (λ e. e.mistake ≡ Memory) }
{
    let setting = Setting {
        lists,
        by_name: false,
    };
    let (schema, next) = type_at(alloc, text, 0, setting, DEPTH)?;
    let next = after_blanks(text, next);
    if next == text.len() {
        Ok(schema)
    } else {
        Err(Refused {
            at: next,
            mistake: Mistake::Longer,
        })
    }
}

/// Parses the type that a source declares with this name, such as `Shape` in
/// `enum Shape { Circle(Point, f64), Square(Point) } struct Point { x: f64, y: f64 }`. `lists` chooses the bounds of
/// `Vec<T>`, as for `parse`.
///
/// Declarations may stand in any order and use each other's names. A name that a declaration uses has its own declaration
/// at the first `struct` or `enum` before it, in a comment too. The call reads only the declarations that the type needs;
/// whatever else the source has may stand between them.
///
/// A name costs as much as its declaration each time that it is used, so a short source can name a very large type.
///
/// # Errors
/// `Undeclared` if the source does not declare the name. Otherwise the first mistake in the declarations that the type
/// needs, and its position in the source.
pub fn parse_declared(
    alloc: Global,
    source: &[u8],
    name: &[u8],
    lists: Bounds,
) -> Result<Schema, Refused>
    ensures names { IfOk result (λ s. Declares (among lists source.now) name.now s) }
    ensures whole { (s : Schema) (d : Declares (among lists source.now) name.now s) → NestsWithin 64 d.names → IfErr result (λ e. e.mistake ≡ Memory) }
    ensures undeclared { declared_in name.now (tokens source.now) ≡ [] → result ≡ Err (record { at = length source.now; mistake = Undeclared }) }
    ensures declared { IfErr result (λ e. e.mistake ≡ Undeclared → declared_in name.now (tokens source.now) ≡ []) }
{
    let Some(start) = declaration_of(source, name) else {
        return Err(Refused {
            at: source.len(),
            mistake: Mistake::Undeclared,
        });
    };
    let setting = Setting {
        lists,
        by_name: true,
    };
    let (schema, _end) = type_at(alloc, source, start, setting, DEPTH)?;
    Ok(schema)
}
