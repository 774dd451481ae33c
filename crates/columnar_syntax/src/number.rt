//! Numbers in the text of a type.
ghost use Rattle.std.specs.Prelude.{◌≡◌, ◌≢◌, ◌<◌, ◌≤◌, ◌^◌, ◌∷◌, ◌++◌, List, [], ℕ, length, drop, IfOk, IfErr, IfSome, IfNone};
ghost use Rattle.columnar_syntax.specs.Names.{IsLimit, StandsLimit, StandsNumber, Writes};
ghost use Rattle.columnar_syntax.specs.Reading.{Passes, PassesNumber};
ghost use Rattle.columnar_syntax.specs.Tokens.{tokens};
ghost use Rattle.columnar_syntax.specs.declared.text.Mistake.TheVariants.{Undeclared};

use crate::scan::{past, word_span};
use crate::text::{Mistake, Refused};

// Returns the number that a word writes in decimal digits; `None` if it writes none below 2^64.
fn number_of(word: &[u8]) -> Option<usize>
    ensures some { IfSome result (λ n. Writes word.now n) }
    ensures none { IfNone result ((n : ℕ) → n < 2 ^ 64 → Writes word.now n → ⊥) }
{
    if word.is_empty() || !word[0].is_ascii_digit() {
        return None;
    }
    let Ok(text) = str::from_utf8(word) else {
        return None;
    };
    match text.parse::<usize>() {
        Ok(number) => Some(number),
        Err(_) => None,
    }
}

/// Parses the number, at most `most`, that follows the blanks; returns it with the position after it.
///
/// # Errors
/// `Number` and the position if there is none.
///
/// # Requires
/// `at` is a position in the text.
#[tactic(auto, using(crate::specs::NumberLaws::number_stands))]
pub(crate) fn number_at(text: &[u8], at: usize, most: usize) -> Result<(usize, usize), Refused>
    requires { at ≤ length text.now }
    ensures most { IfOk result (λ p. p.0 ≤ most) }
    ensures within { IfOk result (λ p. p.1 ≤ length text.now) }
    ensures stands { IfOk result (λ p. StandsNumber (drop at text.now) p.0 (drop p.1 text.now)) }
    ensures passes { (d : List ℕ) (rest : List (List ℕ)) (n : ℕ) → tokens (drop at text.now) ≡ d ∷ rest → Writes d n → n ≤ most → PassesNumber result text.now rest }
    ensures mistake { IfErr result (λ e. e.mistake ≢ Undeclared) }
{
    let (start, end) = word_span(text, at);
    match number_of(&text[start..end]) {
        Some(number) if number <= most => Ok((number, end)),
        _ => Err(Refused {
            at: start,
            mistake: Mistake::Number,
        }),
    }
}

/// Returns the position after a comma and a number of at most 255; the position itself if no comma follows.
///
/// # Errors
/// `Number` and the position after the comma and blanks if there is no such number.
///
/// # Requires
/// `at` is a position in the text.
pub(crate) fn after_limit(text: &[u8], at: usize) -> Result<usize, Refused>
    requires { at ≤ length text.now }
    ensures within { IfOk result (λ n. n ≤ length text.now) }
    ensures stands { IfOk result (λ n. StandsLimit (drop at text.now) (drop n text.now)) }
    ensures passes { (w rest : List (List ℕ)) → tokens (drop at text.now) ≡ w ++ ((62 ∷ []) ∷ rest) → IsLimit w → Passes result text.now ((62 ∷ []) ∷ rest) }
    ensures mistake { IfErr result (λ e. e.mistake ≢ Undeclared) }
{
    let Some(next) = past(text, at, b',') else {
        return Ok(at);
    };
    let (_limit, next) = number_at(text, next, 255)?;
    Ok(next)
}
