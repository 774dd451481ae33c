//! Names of types without parts.
ghost use Rattle.std.specs.Prelude.{◌≡◌, ◌∷◌, [], IfSome, IfNone};
ghost use Rattle.columnar_syntax.specs.Names.{leaf_name};
ghost use Rattle.columnar_syntax.specs.Tokens.{tokens};
ghost use Rattle.columnar_syntax.specs.Reading.{NamesNone, other_leaves, signed_leaves, unsigned_leaves};

use crate::schema::{Bounds, Leaf};

// Returns the unsigned number type with this name.
fn unsigned(word: &[u8]) -> Option<Leaf>
    ensures some { IfSome result (λ l. word.now ≡ leaf_name l) }
    ensures token { IfSome result (λ l. tokens (leaf_name l) ≡ leaf_name l ∷ []) }
    ensures none { IfNone result (NamesNone word.now unsigned_leaves) }
{
    if word == b"u8".as_slice() {
        Some(Leaf::U8)
    } else if word == b"u16".as_slice() {
        Some(Leaf::U16)
    } else if word == b"u32".as_slice() {
        Some(Leaf::U32)
    } else if word == b"u64".as_slice() {
        Some(Leaf::U64)
    } else if word == b"u128".as_slice() {
        Some(Leaf::U128)
    } else if word == b"usize".as_slice() {
        Some(Leaf::Usize)
    } else {
        None
    }
}

// Returns the signed number type with this name.
fn signed(word: &[u8]) -> Option<Leaf>
    ensures some { IfSome result (λ l. word.now ≡ leaf_name l) }
    ensures token { IfSome result (λ l. tokens (leaf_name l) ≡ leaf_name l ∷ []) }
    ensures none { IfNone result (NamesNone word.now signed_leaves) }
{
    if word == b"i8".as_slice() {
        Some(Leaf::I8)
    } else if word == b"i16".as_slice() {
        Some(Leaf::I16)
    } else if word == b"i32".as_slice() {
        Some(Leaf::I32)
    } else if word == b"i64".as_slice() {
        Some(Leaf::I64)
    } else if word == b"i128".as_slice() {
        Some(Leaf::I128)
    } else if word == b"isize".as_slice() {
        Some(Leaf::Isize)
    } else {
        None
    }
}

// Returns the other type without parts with this name.
fn other(word: &[u8]) -> Option<Leaf>
    ensures some { IfSome result (λ l. word.now ≡ leaf_name l) }
    ensures token { IfSome result (λ l. tokens (leaf_name l) ≡ leaf_name l ∷ []) }
    ensures none { IfNone result (NamesNone word.now other_leaves) }
{
    if word == b"f32".as_slice() {
        Some(Leaf::F32)
    } else if word == b"f64".as_slice() {
        Some(Leaf::F64)
    } else if word == b"bool".as_slice() {
        Some(Leaf::Bool)
    } else if word == b"char".as_slice() {
        Some(Leaf::Char)
    } else if word == b"Duration".as_slice() {
        Some(Leaf::Duration)
    } else if word == b"String".as_slice() {
        Some(Leaf::Text(Bounds::Words))
    } else {
        None
    }
}

/// Returns the type without parts with this name.
pub(crate) fn leaf_of(word: &[u8]) -> Option<Leaf>
    ensures some { IfSome result (λ l. word.now ≡ leaf_name l) }
    ensures token { IfSome result (λ l. tokens (leaf_name l) ≡ leaf_name l ∷ []) }
    ensures none { IfNone result (NamesNone word.now unsigned_leaves × (NamesNone word.now signed_leaves × NamesNone word.now other_leaves)) }
{
    match unsigned(word) {
        Some(leaf) => Some(leaf),
        None => match signed(word) {
            Some(leaf) => Some(leaf),
            None => other(word),
        },
    }
}
