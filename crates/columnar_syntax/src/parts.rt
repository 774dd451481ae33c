//! Parts of types, moved into boxes.
ghost use Rattle.std.specs.Prelude.{◌≡◌, ◌⊎◌, ◌∷◌, ◌++◌, Bool, List, [], ℕ, codes, IfOk, IfErr, true};
ghost use Rattle.columnar_syntax.specs.Distinct.{AreApart, Holds};
ghost use Rattle.columnar_syntax.specs.Gathered.{IsGathered, IsValue};
ghost use Rattle.columnar_syntax.specs.Names.{IsLimit, NamesIn, Scope, Writes, a_case, a_field, a_type, all_cases, all_fields, array_of, case_value, inside, is_name, last_comma, other_types, with_comma};
ghost use Rattle.columnar_syntax.specs.Tokens.{marks};
ghost use Rattle.columnar_syntax.specs.declared.text.Mistake.TheVariants.{Memory};

use crate::schema::{Brackets, Schema};
use crate::text::{Mistake, Refused};
use std::alloc::Global;

// Returns the refusal of an allocation.
pub(crate) fn unallocated() -> Refused
    ensures { result.mistake ≡ Memory }
{
    Refused {
        at: 0,
        mistake: Mistake::Memory,
    }
}

// Moves a part of a type into a box.
pub(crate) fn boxed(alloc: Global, part: Schema) -> Result<Box<Schema>, Refused>
    ensures ok { IfOk result (λ b. b.value ≡ part) }
    ensures err { IfErr result (λ e. e.mistake ≡ Memory) }
{
    match Box::new(alloc, part) {
        Ok(part) => Ok(part),
        Err(_) => Err(unallocated()),
    }
}

// Returns the result type with these parts.
#[tactic(auto, using(crate::specs::NameLaws::fallible_named))]
pub(crate) fn fallible(alloc: Global, values: Schema, errors: Schema) -> Result<Schema, Refused>
    ensures err { IfErr result (λ e. e.mistake ≡ Memory) }
    ensures ok { IfOk result (λ s. (scope : Scope) (t u : List (List ℕ)) → NamesIn scope a_type t values → NamesIn scope a_type u errors → NamesIn scope a_type (inside (codes "Result") (with_comma t u)) s) }
{
    let values = boxed(alloc, values)?;
    let errors = boxed(alloc, errors)?;
    Ok(Schema::Fallible(values, errors))
}

// Returns the tuple of one field.
#[tactic(auto, using(crate::specs::NameLaws::solo_named))]
pub(crate) fn solo(alloc: Global, field: Schema) -> Result<Schema, Refused>
    ensures err { IfErr result (λ e. e.mistake ≡ Memory) }
    ensures ok { IfOk result (λ s. (scope : Scope) (t : List (List ℕ)) → NamesIn scope a_type t field → NamesIn scope a_type (marks (codes "(") ++ (t ++ marks (codes ",)"))) s) }
{
    Ok(Schema::Solo(Brackets::Square, boxed(alloc, field)?))
}

// Returns the tuple of these fields.
#[tactic(auto, using(crate::specs::NameLaws::tuple_named))]
pub(crate) fn tuple(alloc: Global, first: Schema, others: Schema) -> Result<Schema, Refused>
    ensures err { IfErr result (λ e. e.mistake ≡ Memory) }
    ensures ok { IfOk result (λ s. (scope : Scope) (t u : List (List ℕ)) → NamesIn scope a_type t first → NamesIn scope other_types u others → NamesIn scope a_type (marks (codes "(") ++ (with_comma t u ++ marks (codes ")"))) s) }
{
    let first = boxed(alloc, first)?;
    let others = boxed(alloc, others)?;
    Ok(Schema::Tuple(Brackets::Square, first, others))
}

// Returns the fields of a tuple: one, and those after it.
#[tactic(auto, using(crate::specs::NameLaws::beside_named))]
pub(crate) fn beside(alloc: Global, field: Schema, later: Schema) -> Result<Schema, Refused>
    ensures err { IfErr result (λ e. e.mistake ≡ Memory) }
    ensures ok { IfOk result (λ s. (scope : Scope) (t u : List (List ℕ)) → NamesIn scope a_type t field → NamesIn scope other_types u later → NamesIn scope other_types (with_comma t u) s) }
{
    let field = boxed(alloc, field)?;
    let later = boxed(alloc, later)?;
    Ok(Schema::Beside(field, later))
}

// Returns the field with this name.
#[tactic(auto, using(crate::specs::NameLaws::labelled_named))]
pub(crate) fn labelled(alloc: Global, name: &[u8], field: Schema) -> Result<Schema, Refused>
    ensures err { IfErr result (λ e. e.mistake ≡ Memory) }
    ensures ok { IfOk result (λ s. (scope : Scope) (t : List (List ℕ)) → is_name name.now ≡ true → NamesIn scope a_type t field → NamesIn scope a_field (name.now ∷ (marks (codes ":") ++ t)) s) }
    ensures holds { IfOk result (λ s. (n : List ℕ) → Holds s n → name.now ≡ n) }
{
    let Ok(name) = Vec::from_slice(alloc, name) else {
        return Err(unallocated());
    };
    Ok(Schema::Field(name, boxed(alloc, field)?))
}

// Returns the fields of a struct: one, and those after it.
#[tactic(auto, using(crate::specs::NameLaws::fields_named))]
pub(crate) fn beside_named(alloc: Global, field: Schema, later: Schema) -> Result<Schema, Refused>
    ensures err { IfErr result (λ e. e.mistake ≡ Memory) }
    ensures ok { IfOk result (λ s. (scope : Scope) (t u : List (List ℕ)) → NamesIn scope a_field t field → NamesIn scope all_fields u later → AreApart field later → NamesIn scope all_fields (with_comma t u) s) }
    ensures holds { IfOk result (λ s. (n : List ℕ) → Holds s n → Holds field n ⊎ Holds later n) }
{
    let field = boxed(alloc, field)?;
    let later = boxed(alloc, later)?;
    Ok(Schema::Beside(field, later))
}

// Returns the type with these fields.
#[tactic(auto, using(crate::specs::NameLaws::gathered_one, crate::specs::NameLaws::gathered_several))]
pub(crate) fn gathered(
    alloc: Global,
    all: Schema,
    one: Brackets,
    several: Brackets,
) -> Result<Schema, Refused>
    ensures err { IfErr result (λ e. e.mistake ≡ Memory) }
    ensures ok { IfOk result (λ s. IsGathered one several all s) }
{
    match all {
        Schema::Beside(first, others) => Ok(Schema::Tuple(several, first, others)),
        only => Ok(Schema::Solo(one, boxed(alloc, only)?)),
    }
}

// Returns the enum of these variants.
#[tactic(auto, using(crate::specs::CaseNameLaws::sum_named))]
pub(crate) fn sum(alloc: Global, cases: Schema) -> Result<Schema, Refused>
    ensures err { IfErr result (λ e. e.mistake ≡ Memory) }
    ensures ok { IfOk result (λ s. (scope : Scope) (n : List ℕ) (t : List (List ℕ)) (c : Bool) → is_name n ≡ true → NamesIn scope all_cases t cases → NamesIn scope a_type (codes "enum" ∷ (n ∷ (marks (codes "{") ++ (t ++ (last_comma c ++ marks (codes "}")))))) s) }
{
    Ok(Schema::Sum(boxed(alloc, cases)?))
}

// Returns the variants of an enum: one, and those after it.
#[tactic(auto, using(crate::specs::CaseNameLaws::cases_named))]
pub(crate) fn beside_case(alloc: Global, case: Schema, later: Schema) -> Result<Schema, Refused>
    ensures err { IfErr result (λ e. e.mistake ≡ Memory) }
    ensures ok { IfOk result (λ s. (scope : Scope) (t u : List (List ℕ)) → NamesIn scope a_case t case → NamesIn scope all_cases u later → AreApart case later → NamesIn scope all_cases (with_comma t u) s) }
    ensures holds { IfOk result (λ s. (n : List ℕ) → Holds s n → Holds case n ⊎ Holds later n) }
{
    let case = boxed(alloc, case)?;
    let later = boxed(alloc, later)?;
    Ok(Schema::Beside(case, later))
}

// Returns the variant with this name, without a value.
#[tactic(auto, using(crate::specs::CaseNameLaws::named_named))]
pub(crate) fn unvalued(alloc: Global, name: &[u8]) -> Result<Schema, Refused>
    ensures err { IfErr result (λ e. e.mistake ≡ Memory) }
    ensures ok { IfOk result (λ s. (scope : Scope) → is_name name.now ≡ true → NamesIn scope a_case (name.now ∷ []) s) }
    ensures holds { IfOk result (λ s. (n : List ℕ) → Holds s n → name.now ≡ n) }
{
    match Vec::from_slice(alloc, name) {
        Ok(name) => Ok(Schema::Named(name)),
        Err(_) => Err(unallocated()),
    }
}

// Returns the variant with this name and this value.
#[tactic(auto, using(crate::specs::CaseNameLaws::valued_named))]
pub(crate) fn valued(
    alloc: Global,
    name: &[u8],
    brackets: Brackets,
    value: Schema,
) -> Result<Schema, Refused>
    ensures err { IfErr result (λ e. e.mistake ≡ Memory) }
    ensures ok { IfOk result (λ s. (scope : Scope) (t : List (List ℕ)) → is_name name.now ≡ true → NamesIn scope (case_value brackets) t value → NamesIn scope a_case (name.now ∷ t) s) }
    ensures holds { IfOk result (λ s. (n : List ℕ) → Holds s n → name.now ≡ n) }
{
    let Ok(name) = Vec::from_slice(alloc, name) else {
        return Err(unallocated());
    };
    Ok(Schema::Case(name, brackets, boxed(alloc, value)?))
}

// Returns the value of these fields: the one field itself, or several.
#[tactic(auto, using(crate::specs::CaseNameLaws::value_one, crate::specs::CaseNameLaws::value_several))]
pub(crate) fn value_of(all: Schema, several: Brackets) -> Schema
    ensures { IsValue several all result }
{
    match all {
        Schema::Beside(first, others) => Schema::Tuple(several, first, others),
        only => only,
    }
}

/// Returns the array type with this number of items.
#[tactic(auto, using(crate::specs::NumberLaws::array_named))]
pub(crate) fn array(alloc: Global, items: usize, part: Schema) -> Result<Schema, Refused>
    ensures err { IfErr result (λ e. e.mistake ≡ Memory) }
    ensures ok { IfOk result (λ s. (scope : Scope) (t : List (List ℕ)) (d : List ℕ) → Writes d items → NamesIn scope a_type t part → NamesIn scope a_type (array_of t d) s) }
{
    Ok(Schema::Array(items, boxed(alloc, part)?))
}

/// Returns lookbacks of this type.
#[tactic(auto, using(crate::specs::NumberLaws::recalled_named))]
pub(crate) fn recalled(alloc: Global, part: Schema) -> Result<Schema, Refused>
    ensures err { IfErr result (λ e. e.mistake ≡ Memory) }
    ensures ok { IfOk result (λ s. (scope : Scope) (t w : List (List ℕ)) → IsLimit w → NamesIn scope a_type t part → NamesIn scope a_type (inside (codes "Lookbacks") (t ++ w)) s) }
{
    Ok(Schema::Recalled(boxed(alloc, part)?))
}
