//! The lines of a batch, each an event: `TIME USER LEVEL TEXT`.
ghost use Rattle.std.specs.Prelude.{◌≡◌, ◌<◌, ◌↔◌, length, IsOk, IfOk, OnErr, [], ◌≢◌};
ghost use Rattle.event_log.specs.Levels.{level_number, named_level};
ghost use Rattle.event_log.specs.Lines.{HasPart, IsEvent, IsTime, after_line, after_part, event_row, line, line_row, part, time_value};
ghost use Rattle.event_log.specs.Told.{reason_words};

use crate::level::Level;

/// An event: its time, its user, its severity and its text.
#[derive(Clone, Copy)]
pub struct Event<'a> {
    pub time: u64,
    pub user: &'a str,
    pub level: Level,
    pub text: &'a str,
}

/// Why a line is not an event.
#[derive(Clone, Copy)]
pub enum Reason {
    /// It has fewer than three spaces.
    Parts,
    /// Its time is not a 64-bit number.
    Time,
    /// Its user is empty.
    User,
    /// Its level is none of the four.
    Level,
}

impl Reason {
    /// Returns the message for the reason.
    pub fn words(self) -> &'static str
        ensures { result.now ≡ reason_words self }
    {
        match self {
            Reason::Parts => "it does not have four parts",
            Reason::Time => "its time is not a 64-bit number",
            Reason::User => "it has no user",
            Reason::Level => "its level is none of debug, info, warn, error",
        }
    }
}

/// Splits a text into its first line, without the line's end, and the rest.
pub fn first_line(text: &str) -> (&str, &str)
    ensures line { result.0.now ≡ line text.now }
    ensures after { result.1.now ≡ after_line text.now }
    ensures shorter { text.now ≢ [] → length result.1.now < length text.now }
{
    match text.split_once('\n') {
        Some(parts) => parts,
        None => (text, ""),
    }
}

// Splits a text at the first space.
fn first_part(text: &str) -> Result<(&str, &str), Reason>
    ensures ok { IfOk result (λ r. HasPart text.now × (r.0.now ≡ part text.now) × (r.1.now ≡ after_part text.now)) }
    ensures err { OnErr result (HasPart text.now → ⊥) }
{
    match text.split_once(' ') {
        Some(parts) => Ok(parts),
        None => Err(Reason::Parts),
    }
}

// Parses the number.
fn time_of(text: &str) -> Result<u64, Reason>
    ensures ok { IfOk result (λ n. IsTime text.now × (n ≡ time_value text.now)) }
    ensures err { OnErr result (IsTime text.now → ⊥) }
{
    match text.parse::<u64>() {
        Ok(time) => Ok(time),
        Err(_) => Err(Reason::Time),
    }
}

// Parses the level.
fn level_of(text: &str) -> Result<Level, Reason>
    ensures ok { IfOk result (λ l. level_number l ≡ named_level text.now) }
    ensures err { OnErr result (named_level text.now ≡ 4) }
{
    match Level::named(text) {
        Some(level) => Ok(level),
        None => Err(Reason::Level),
    }
}

/// Parses a line as an event.
pub fn event_of(line: &str) -> Result<Event<'_>, Reason>
    ensures row { IfOk result (λ e. event_row e ≡ line_row line.now) }
    ensures event { IfOk result (λ e. IsEvent line.now) }
    ensures refused { OnErr result (IsEvent line.now → ⊥) }
{
    let (time, rest) = first_part(line)?;
    let (user, rest) = first_part(rest)?;
    let (level, text) = first_part(rest)?;
    if user.is_empty() {
        return Err(Reason::User);
    }
    Ok(Event {
        time: time_of(time)?,
        user,
        level: level_of(level)?,
        text,
    })
}
