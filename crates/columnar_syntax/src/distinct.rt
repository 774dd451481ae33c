//! Fields of a struct, and variants of an enum, with the same name.
ghost use Rattle.std.specs.Prelude.{◌≡◌, ◌↔◌, List, ℕ, true, false};
ghost use Rattle.columnar_syntax.specs.Distinct.{AreApart, Holds};

use crate::schema::Schema;

fn is_same(one: &[u8], other: &[u8]) -> bool
    ensures { (result ≡ true) ↔ (one.now ≡ other.now) }
{
    one == other
}

// Returns whether one of these fields or variants has this name.
#[tactic(auto, using(crate::specs::DistinctLaws::field_holds, crate::specs::DistinctLaws::named_holds, crate::specs::DistinctLaws::case_holds, crate::specs::DistinctLaws::first_holds, crate::specs::DistinctLaws::later_holds))]
fn has_name(schema: &Schema, name: &[u8]) -> bool
    ensures { (result ≡ true) ↔ Holds schema.now name.now }
{
    match schema {
        Schema::Field(own, _) => is_same(own.as_slice(), name),
        Schema::Named(own) => is_same(own.as_slice(), name),
        Schema::Case(own, _, _) => is_same(own.as_slice(), name),
        Schema::Beside(first, later) => has_name(first, name) || has_name(later, name),
        _ => false,
    }
}

/// Returns whether a field or a variant has a name that is among those of the later ones.
#[tactic(auto, using(crate::specs::DistinctLaws::field_apart, crate::specs::DistinctLaws::named_apart, crate::specs::DistinctLaws::case_apart, crate::specs::DistinctLaws::others_apart, crate::specs::DistinctLaws::field_shared, crate::specs::DistinctLaws::named_shared, crate::specs::DistinctLaws::case_shared, crate::specs::DistinctLaws::first_shared, crate::specs::DistinctLaws::later_shared))]
pub(crate) fn shares_name(first: &Schema, later: &Schema) -> bool
    ensures apart { result ≡ false → AreApart first.now later.now }
    ensures shared { result ≡ true → (n : List ℕ) × (Holds first.now n × Holds later.now n) }
{
    match first {
        Schema::Field(name, _) => has_name(later, name.as_slice()),
        Schema::Named(name) => has_name(later, name.as_slice()),
        Schema::Case(name, _, _) => has_name(later, name.as_slice()),
        Schema::Beside(one, others) => shares_name(one, later) || shares_name(others, later),
        _ => false,
    }
}
