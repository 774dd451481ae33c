//! The code that writes fields in place, by name.
use crate::lines::{Lines, WIDTH, keep};
use std::alloc::{AllocError, Global};

/// A field that is written by name.
#[derive(Debug, Drop)]
pub struct Setter {
    /// The name of the method.
    pub method: String,
    /// The field, in words.
    pub told: String,
    /// The column of the field.
    pub column: String,
}

/// The fields of a struct without parameters.
#[derive(Clone, Copy)]
pub struct Setters<'x> {
    pub alloc: Global,
    /// The name of the struct.
    pub name: &'x str,
    /// The fields, in order.
    pub fields: &'x [Setter],
}

// The ends of the names of methods that every column has.
const TAKEN: [&str; 4] = ["row", "row_checked", "item", "item_checked"];

/// Returns the name of the method that writes a field.
pub fn setter_name(alloc: Global, field: &str) -> Result<String, AllocError> {
    let end = if TAKEN.iter().any(|word| *word == field) {
        "_"
    } else {
        ""
    };
    format!(in alloc; "set_{field}{end}")
}

impl Setters<'_> {
    /// Adds a method for each field to the column.
    pub fn add(&self, lines: &mut Lines) -> Result<(), AllocError> {
        let (alloc, name) = (self.alloc, self.name);
        let names = match self.fields.len() {
            0 => return Ok(()),
            1 => "WroteOnly, only_at",
            _ => "WroteField, field_at, last_at",
        };
        lines.put(format!(in alloc;
            "
impl {name}Container {{
    ghost use Rattle.std.specs.Prelude.{{length, ◌<◌}};
    ghost use Rattle.columnar.specs.Format.{{IsSound}};
    ghost use Rattle.columnar.specs.FieldWrites.{{{names}}};"
        ))?;
        let count = self.fields.len();
        for (i, field) in self.fields.iter().enumerate() {
            self.add_setter(lines, field, i, count)?;
        }
        lines.add("}")
    }

    // Adds the method for field `i` of `count`.
    fn add_setter(
        &self,
        lines: &mut Lines,
        field: &Setter,
        i: usize,
        count: usize,
    ) -> Result<(), AllocError> {
        let Setter {
            method,
            told,
            column,
        } = field;
        let alloc = self.alloc;
        lines.put(format!(in alloc;
            "
    /// Writes {told} of row `index`. Allocates nothing.
    ///
    /// # Requires
    /// The column is well-formed and has such a row, and `value` is valid and may replace what is there."
        ))?;
        let before = format!(in alloc; "pub fn {method}<T: Item>(")?;
        let mut given = Vec::new(alloc);
        for text in ["&mut self", "index: usize", "value: T"] {
            keep(&mut given, String::from_str(alloc, text)?)?;
        }
        lines.add_list("    ", before.as_str(), given.as_slice(), ")", WIDTH)?;
        lines.put(format!(in alloc;
            "    where
        {column}: SetRow<T>,"
        ))?;
        self.add_contract(lines, column.as_str(), i, count)?;
        let body = if count == 1 {
            String::from_str(alloc, "self.parts.set_row(index, (value,));")?
        } else {
            format!(in alloc; "self.parts.set_item(index, columnar::Field::<{i}>, value);")?
        };
        lines.put(format!(in alloc; "    {{\n        {body}\n    }}"))
    }

    // Adds the contract of the method for field `i` of `count`.
    fn add_contract(
        &self,
        lines: &mut Lines,
        column: &str,
        i: usize,
        count: usize,
    ) -> Result<(), AllocError> {
        let alloc = self.alloc;
        let own = format!(in alloc; "⟦<{}Container as Column>⟧", self.name)?;
        let old = format!(in alloc; "{own}.format ({own}.content self.old)")?;
        let old = old.as_str();
        let after = count.saturating_sub(i.saturating_add(1));
        let there = match (count, after) {
            (1, _) => format!(in alloc; "only_at {old} index")?,
            (_, 0) => format!(in alloc; "last_at {old} index {i}")?,
            _ => format!(in alloc; "field_at {old} index {i}")?,
        };
        let wrote = if count == 1 {
            format!(in alloc; "WroteOnly {old} ({own}.content self.new) index")?
        } else {
            format!(in alloc; "WroteField {old} ({own}.content self.new) index {i} {after}")?
        };
        lines.put(format!(in alloc;
            "        requires sound {{ IsSound {old} }}
        requires in_range {{ index < length ({own}.format.rows ({own}.content self.old)) }}
        requires valid {{ T.valid value }}
        requires fits {{ ⟦<{column} as SetRow<T>>⟧.fits ({}) value }}
        ensures {{ {} (T.meaning value) }}",
            there.as_str(),
            wrote.as_str()
        ))
    }
}
