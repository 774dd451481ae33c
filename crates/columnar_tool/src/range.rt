//! Ranges of rows.
ghost use Rattle.std.specs.Prelude.{◌≡◌, IfSome, IfNone};
ghost use Rattle.columnar_tool.specs.Spans.{IsWithin, last};

/// Rows from one up to another.
#[derive(Clone, Copy, PartialEq, Drop)]
pub struct Span {
    /// The first row.
    pub from: usize,
    /// The row after the last one; `None`: up to the end.
    pub to: Option<usize>,
}

impl Span {
    /// Returns the row after the last one, among this many rows; `None` if the rows are not all among them.
    pub fn end(self, count: usize) -> Option<usize>
        ensures end { IfSome result (λ n. (n ≡ last self count) × IsWithin self count) }
        ensures none { IfNone result (¬ IsWithin self count) }
    {
        let to = self.to.unwrap_or(count);
        if self.from <= to && to <= count {
            Some(to)
        } else {
            None
        }
    }
}

/// All rows.
pub const ALL: Span = Span { from: 0, to: None };

// Reads a number.
fn number_of(text: &str) -> Option<usize> {
    match text.parse::<usize>() {
        Ok(number) => Some(number),
        Err(_) => None,
    }
}

/// Reads `FROM..TO`, of which either number may be missing; `None` for another text.
pub fn span_of(text: &str) -> Option<Span> {
    let (from, to) = text.split_once("..")?;
    let from = if from.is_empty() { 0 } else { number_of(from)? };
    let to = if to.is_empty() {
        None
    } else {
        Some(number_of(to)?)
    };
    Some(Span { from, to })
}
