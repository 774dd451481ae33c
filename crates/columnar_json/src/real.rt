//! Texts of floats, appended to bytes.
ghost use Rattle.std.specs.Prelude.{◌≡◌, ◌∷◌, [], ℕ, List, Some, IsTrue, true};
ghost use Rattle.std.specs.Float.{binary32, binary64, float_is_finite};
ghost use Rattle.std.specs.Float.Ieee.{fits};
ghost use Rattle.ryu.specs.Parse.{parse_float};
ghost use Rattle.ryu.specs.Plain.{IsPlusNumber};
ghost use Rattle.columnar_json.specs.Csv.{finite};
ghost use Rattle.columnar_json.specs.Pieces.{double, single};
ghost use Rattle.columnar_json.specs.Written.{Wrote, WroteRow};

use crate::text::push_bytes;
use crate::unwritten::Unwritten;
use ryu::Float;
use ryu::raw::{LEN, format_with_plus};

// Appends a number that reads as the float.
fn push_finite<F: Float>(out: &mut Vec<u8>, x: F) -> Result<(), Unwritten>
    requires { IsTrue (float_is_finite (F.value x)) }
    ensures { (t : List ℕ) × (IsPlusNumber F.WHOLE_DIGITS F.LEADING_ZEROS t × ((parse_float F.format t ≡ Some (F.value x)) × Wrote out.old.items out.new.items t [] result)) }
{
    let mut text = [0; LEN];
    let end = format_with_plus(x, &mut text);
    push_bytes(out, &text[..end])
}

/// Appends a number that reads as the float, or `null` if the float is not finite.
pub fn push_single(out: &mut Vec<u8>, x: f32) -> Result<(), Unwritten>
    ensures fits { fits binary32 x ≡ true }
    ensures text { WroteRow out.old.items out.new.items (single x ∷ []) [] result }
{
    if x.is_finite() {
        push_finite(out, x)
    } else {
        push_bytes(out, b"null")
    }
}

/// Appends a number that reads as the float, or `null` if the float is not finite.
pub fn push_double(out: &mut Vec<u8>, x: f64) -> Result<(), Unwritten>
    ensures fits { fits binary64 x ≡ true }
    ensures text { WroteRow out.old.items out.new.items (double x ∷ []) [] result }
{
    if x.is_finite() {
        push_finite(out, x)
    } else {
        push_bytes(out, b"null")
    }
}

/// Appends a number that reads as the float, or nothing if the float is not finite.
pub fn push_finite_single(out: &mut Vec<u8>, x: f32) -> Result<(), Unwritten>
    ensures fits { fits binary32 x ≡ true }
    ensures text { WroteRow out.old.items out.new.items (finite x (single x)) [] result }
{
    if x.is_finite() {
        push_finite(out, x)
    } else {
        push_bytes(out, b"")
    }
}

/// Appends a number that reads as the float, or nothing if the float is not finite.
pub fn push_finite_double(out: &mut Vec<u8>, x: f64) -> Result<(), Unwritten>
    ensures fits { fits binary64 x ≡ true }
    ensures text { WroteRow out.old.items out.new.items (finite x (double x)) [] result }
{
    if x.is_finite() {
        push_finite(out, x)
    } else {
        push_bytes(out, b"")
    }
}
