//! The fields that a command chooses.
ghost use Rattle.std.specs.Prelude.{◌≡◌, ◌∷◌, ◌++◌, [], ◌<◌, false, true, length, map, IfOk, IfSome, MatchOption, OnOk};
ghost use Rattle.columnar_tool.specs.Choices.{are_chosen, is_in, names_in};

use std::alloc::Global;

/// Why fields were not chosen.
#[derive(Clone, Copy, PartialEq, Drop)]
pub enum Unchosen<'a> {
    /// An allocation failed.
    Memory,
    /// The type has no field with this name.
    Unknown(&'a str),
    /// This name stands twice.
    Twice(&'a str),
}

// Returns whether a name is among others.
fn is_among(name: &[u8], names: &[&[u8]]) -> bool
    ensures { result ≡ is_in name.now (map (λ n. n.now) names.now) }
{
    match names.split_first() {
        None => false,
        Some((first, rest)) => *first == name || is_among(name, rest),
    }
}

// Appends a name of a field that is not there yet.
#[tactic(auto, using(crate::specs::ChoiceLaws::map_push))]
fn add_name<'a>(
    name: &'a str,
    fields: &[&[u8]],
    names: &mut Vec<&'a [u8]>,
) -> Result<(), Unchosen<'a>>
    ensures added { OnOk result (map (λ n. n.now) names.new.items ≡ map (λ n. n.now) names.old.items ++ (name.now ∷ [])) }
    ensures known { OnOk result (is_in name.now (map (λ n. n.now) fields.now) ≡ true) }
    ensures once { OnOk result (is_in name.now (map (λ n. n.now) names.old.items) ≡ false) }
{
    if !is_among(name.as_bytes(), fields) {
        return Err(Unchosen::Unknown(name));
    }
    if is_among(name.as_bytes(), names.as_slice()) {
        return Err(Unchosen::Twice(name));
    }
    match names.push(name.as_bytes()) {
        Ok(()) => Ok(()),
        Err(_) => Err(Unchosen::Memory),
    }
}

// Splits a text at its first comma.
fn at_comma(text: &str) -> Option<(&str, &str)>
    ensures split { MatchOption result (names_in text.now ≡ text.now ∷ []) (λ p. names_in text.now ≡ p.0.now ∷ names_in p.1.now) }
    ensures shorter { IfSome result (λ p. length p.1.now < length text.now) }
{
    text.split_once(',')
}

// Appends the names in a text with commas between them.
#[tactic(auto, using(crate::specs::ChoiceLaws::one_chosen, crate::specs::ChoiceLaws::one_added, crate::specs::ChoiceLaws::more_chosen, crate::specs::ChoiceLaws::more_added))]
fn add_names<'a>(
    text: &'a str,
    fields: &[&[u8]],
    names: &mut Vec<&'a [u8]>,
) -> Result<(), Unchosen<'a>>
    ensures added { OnOk result (map (λ n. n.now) names.new.items ≡ map (λ n. n.now) names.old.items ++ names_in text.now) }
    ensures chosen { OnOk result (are_chosen (map (λ n. n.now) fields.now) (map (λ n. n.now) names.old.items) (names_in text.now) ≡ true) }
{
    match at_comma(text) {
        None => add_name(text, fields, names),
        Some((name, later)) => {
            add_name(name, fields, names)?;
            add_names(later, fields, names)
        }
    }
}

/// Reads names with commas between them.
///
/// # Errors
/// The first name that is not that of a field, or stands twice.
pub fn choose<'a>(
    alloc: Global,
    text: &'a str,
    fields: &[&[u8]],
) -> Result<Vec<&'a [u8]>, Unchosen<'a>>
    ensures names { IfOk result (λ names. map (λ n. n.now) names.items ≡ names_in text.now) }
    ensures chosen { IfOk result (λ names. are_chosen (map (λ n. n.now) fields.now) [] (names_in text.now) ≡ true) }
{
    let mut names = Vec::new(alloc);
    match add_names(text, fields, &mut names) {
        Ok(()) => Ok(names),
        Err(why) => Err(why),
    }
}
