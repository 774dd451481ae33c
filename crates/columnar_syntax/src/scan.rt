//! Blanks, marks, words and names at a position of a text.
ghost use Rattle.std.specs.Prelude.{◌≡◌, ◌≢◌, ◌<◌, ◌≤◌, ◌+◌, ◌∷◌, List, [], ℕ, length, drop, IfOk, IfErr, IfSome, IfNone, true, false};
ghost use Rattle.std.specs.List.{list_all};
ghost use Rattle.columnar_syntax.specs.Names.{is_name};
ghost use Rattle.columnar_syntax.specs.Reading.{Passes, PassesWord, begins_blank, between, first_is, word_length};
ghost use Rattle.columnar_syntax.specs.Tokens.{begins_word, is_blank, is_word_byte, tokens};
ghost use Rattle.columnar_syntax.specs.declared.text.Mistake.TheVariants.{Undeclared};

use crate::text::{Mistake, Refused};

fn blank(byte: u8) -> bool
    ensures { result ≡ is_blank byte }
{
    byte == b' ' || byte == b'\t' || byte == b'\n' || byte == b'\r'
}

// Returns the position after blanks.
#[tactic(auto, using(crate::specs::ReadingLaws::blank_passed, crate::specs::ReadingLaws::blanks_end, crate::specs::ReadingLaws::blanks_end_last))]
pub(crate) fn after_blanks(text: &[u8], at: usize) -> usize
    requires { at ≤ length text.now }
    ensures from { at ≤ result }
    ensures within { result ≤ length text.now }
    ensures same { tokens (drop at text.now) ≡ tokens (drop result text.now) }
    ensures ends { begins_blank (drop result text.now) ≡ false }
{
    for i in at..text.len() {
        if !blank(text[i]) {
            return i;
        }
    }
    text.len()
}

// Returns the position after this byte, if it follows the blanks.
#[tactic(auto, using(crate::specs::ReadingLaws::mark_stands, crate::specs::ReadingLaws::other_stands, crate::specs::ReadingLaws::none_stands))]
pub(crate) fn past(text: &[u8], at: usize, wanted: u8) -> Option<usize>
    requires within { at ≤ length text.now }
    requires mark { is_word_byte wanted ≡ false }
    ensures within { IfSome result (λ n. n ≤ length text.now) }
    ensures some { IfSome result (λ n. tokens (drop at text.now) ≡ (wanted ∷ []) ∷ tokens (drop n text.now)) }
    ensures none { IfNone result (first_is wanted (tokens (drop at text.now)) ≡ false) }
{
    let at = after_blanks(text, at);
    if at == text.len() {
        return None;
    }
    if text[at] == wanted {
        Some(at + 1)
    } else {
        None
    }
}

// Returns the position after this byte, which must follow the blanks.
pub(crate) fn after(text: &[u8], at: usize, wanted: u8) -> Result<usize, Refused>
    requires within { at ≤ length text.now }
    requires mark { is_word_byte wanted ≡ false }
    ensures within { IfOk result (λ n. n ≤ length text.now) }
    ensures stands { IfOk result (λ n. tokens (drop at text.now) ≡ (wanted ∷ []) ∷ tokens (drop n text.now)) }
    ensures passes { (x : List (List ℕ)) → tokens (drop at text.now) ≡ (wanted ∷ []) ∷ x → Passes result text.now x }
    ensures mistake { IfErr result (λ e. e.mistake ≢ Undeclared) }
{
    match past(text, at, wanted) {
        Some(next) => Ok(next),
        None => Err(Refused {
            at: after_blanks(text, at),
            mistake: Mistake::Wanted(wanted),
        }),
    }
}

// Tests whether the byte is a letter, a digit or `_`.
pub(crate) fn is_of_name(byte: u8) -> bool
    ensures { result ≡ is_word_byte byte }
{
    byte.is_ascii_alphanumeric() || byte == b'_'
}

// Returns the end of the word that starts at the position.
#[tactic(auto, using(crate::specs::ReadingLaws::word_goes_on, crate::specs::ReadingLaws::word_ends, crate::specs::ReadingLaws::word_ends_last))]
fn word_end(text: &[u8], at: usize) -> usize
    requires { at ≤ length text.now }
    ensures within { result ≤ length text.now }
    ensures ends { result ≡ at + word_length (drop at text.now) }
{
    for i in at..text.len() {
        if !is_of_name(text[i]) {
            return i;
        }
    }
    text.len()
}

// Returns where the word begins that follows the blanks, and where it ends; the same position twice if none does.
#[tactic(auto, using(crate::specs::ReadingLaws::word_stands, crate::specs::ReadingLaws::word_bytes, crate::specs::ReadingLaws::word_begins, crate::specs::ReadingLaws::word_read))]
pub(crate) fn word_span(text: &[u8], at: usize) -> (usize, usize)
    requires { at ≤ length text.now }
    ensures ordered { result.0 ≤ result.1 }
    ensures within { result.1 ≤ length text.now }
    ensures stands { result.0 < result.1 → tokens (drop at text.now) ≡ between result text.now ∷ tokens (drop result.1 text.now) }
    ensures word { list_all is_word_byte (between result text.now) ≡ true }
    ensures begins { result.0 < result.1 → begins_word (between result text.now) ≡ true }
    ensures passes { (w : List ℕ) (x : List (List ℕ)) → tokens (drop at text.now) ≡ w ∷ x → begins_word w ≡ true → (between result text.now ≡ w) × (tokens (drop result.1 text.now) ≡ x) }
{
    let start = after_blanks(text, at);
    (start, word_end(text, start))
}

// Returns where the token begins that follows the blanks, and where it ends; the end of the text twice if none does.
#[tactic(auto, using(crate::specs::DeclarationLaws::mark_between, crate::specs::DeclarationLaws::word_longer, crate::specs::DeclarationLaws::none_at_end, crate::specs::ReadingLaws::word_stands))]
pub(crate) fn token_span(text: &[u8], at: usize) -> (usize, usize)
    requires { at ≤ length text.now }
    ensures from { at ≤ result.0 }
    ensures ordered { result.0 ≤ result.1 }
    ensures within { result.1 ≤ length text.now }
    ensures same { tokens (drop at text.now) ≡ tokens (drop result.0 text.now) }
    ensures stands { result.0 < result.1 → tokens (drop at text.now) ≡ between result text.now ∷ tokens (drop result.1 text.now) }
    ensures ends { result.0 ≡ result.1 → (tokens (drop at text.now) ≡ []) × (result.1 ≡ length text.now) }
{
    let start = after_blanks(text, at);
    if start == text.len() {
        return (start, start);
    }
    if is_of_name(text[start]) {
        (start, word_end(text, start))
    } else {
        (start, start + 1)
    }
}

// Returns where the word begins that must follow the blanks, and where it ends.
pub(crate) fn word_at(text: &[u8], at: usize) -> Result<(usize, usize), Refused>
    requires { at ≤ length text.now }
    ensures some { IfOk result (λ p. p.0 < p.1) }
    ensures within { IfOk result (λ p. p.1 ≤ length text.now) }
    ensures stands { IfOk result (λ p. tokens (drop at text.now) ≡ between p text.now ∷ tokens (drop p.1 text.now)) }
    ensures word { IfOk result (λ p. list_all is_word_byte (between p text.now) ≡ true) }
    ensures begins { IfOk result (λ p. begins_word (between p text.now) ≡ true) }
    ensures passes { (w : List ℕ) (x : List (List ℕ)) → tokens (drop at text.now) ≡ w ∷ x → begins_word w ≡ true → PassesWord result text.now w x }
    ensures mistake { IfErr result (λ e. e.mistake ≢ Undeclared) }
{
    let (start, end) = word_span(text, at);
    if start == end {
        return Err(Refused {
            at: start,
            mistake: Mistake::Name,
        });
    }
    Ok((start, end))
}

// Returns where the name begins that must follow the blanks, and where it ends.
#[tactic(auto, using(crate::specs::NameLaws::name_scanned))]
pub(crate) fn name_at(text: &[u8], at: usize) -> Result<(usize, usize), Refused>
    requires { at ≤ length text.now }
    ensures ordered { IfOk result (λ p. p.0 ≤ p.1) }
    ensures within { IfOk result (λ p. p.1 ≤ length text.now) }
    ensures name { IfOk result (λ p. is_name (between p text.now) ≡ true) }
    ensures stands { IfOk result (λ p. tokens (drop at text.now) ≡ between p text.now ∷ tokens (drop p.1 text.now)) }
    ensures passes { (w : List ℕ) (x : List (List ℕ)) → tokens (drop at text.now) ≡ w ∷ x → is_name w ≡ true → PassesWord result text.now w x }
    ensures mistake { IfErr result (λ e. e.mistake ≢ Undeclared) }
{
    let (start, end) = word_at(text, at)?;
    if text[start].is_ascii_digit() {
        return Err(Refused {
            at: start,
            mistake: Mistake::Name,
        });
    }
    Ok((start, end))
}

// Tests whether this byte follows the blanks.
pub(crate) fn stands_at(text: &[u8], at: usize, wanted: u8) -> bool
    requires within { at ≤ length text.now }
    requires mark { is_word_byte wanted ≡ false }
    ensures { result ≡ first_is wanted (tokens (drop at text.now)) }
{
    past(text, at, wanted).is_some()
}
