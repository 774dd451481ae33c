//! The variants of an enum, and the code for each.
use crate::generics::Generics;
use crate::item::{Field, Value, Variant};
use crate::lines::{Arm, Lines, in_tuple, joined, keep, letter};
use std::alloc::{AllocError, Global};

/// A variant.
#[derive(Drop)]
pub struct Case {
    pub name: String,
    /// The type as which the value is read: a parameter, or `()` for a variant without a value.
    pub param: String,
    /// The types of the fields; the type of the value, which is the one field or the tuple of all; and the type of the
    /// lent value.
    pub kinds: Vec<String>,
    pub kind: String,
    pub lent: String,
    /// The column of the values.
    pub column: String,
    /// The column of the parts of the values, if the column of the values is a struct around it.
    pub inner: Option<String>,
    /// How many types the columns of the fields name.
    pub weight: usize,
    // A letter for each field, and the value made of the letters.
    letters: Vec<String>,
    value: String,
    // The patterns of named fields, which bind the letters.
    fields: Vec<String>,
}

// Returns one text as it is, and several as a tuple.
fn one_or_tuple(alloc: Global, texts: &[String]) -> Result<String, AllocError> {
    match texts {
        [text] => String::from_str(alloc, text.as_str()),
        _ => in_tuple(alloc, texts),
    }
}

// Returns the type of a variant's value, and the type of the lent value. `prefix` begins the names of aliases.
fn value_types(
    alloc: Global,
    prefix: &str,
    generics: &Generics,
    name: &str,
    kinds: &[String],
) -> Result<(String, String), AllocError> {
    let of_value = generics.to_alias(alloc, &[], kinds)?;
    let of_lent = generics.to_alias(alloc, &[String::from_str(alloc, "'x")?], kinds)?;
    match kinds {
        [] => Ok((in_tuple(alloc, &[])?, String::new(alloc))),
        [kind] => Ok((
            String::from_str(alloc, kind.as_str())?,
            format!(in alloc; "&'x {kind}")?,
        )),
        _ => Ok((
            format!(in alloc; "{prefix}ValueOf{name}{of_value}")?,
            format!(in alloc; "{prefix}LentOf{name}{of_lent}")?,
        )),
    }
}

impl Case {
    /// Makes a variant whose value is read as `param`. `prefix` begins the names of aliases.
    pub fn new(
        alloc: Global,
        prefix: &str,
        generics: &Generics,
        variant: &Variant,
        param: String,
    ) -> Result<Case, AllocError> {
        let mut kinds = Vec::new(alloc);
        let mut fields = Vec::new(alloc);
        let mut letters = Vec::new(alloc);
        let (of, have_names) = match &variant.value {
            Value::Nothing => (&[] as &[Field], false),
            Value::Types(of) => (of.as_slice(), false),
            Value::Fields(of) => (of.as_slice(), true),
        };
        for (i, field) in of.iter().enumerate() {
            let letter = letter(alloc, i)?;
            keep(&mut kinds, String::from_str(alloc, field.kind.as_str())?)?;
            if have_names {
                keep(&mut fields, named(alloc, field, letter.as_str())?)?;
            }
            keep(&mut letters, letter)?;
        }
        let name = variant.name.as_str();
        let (kind, lent) = value_types(alloc, prefix, generics, name, kinds.as_slice())?;
        let column = column_of(alloc, of, kind.as_str())?;
        Ok(Case {
            name: String::from_str(alloc, name)?,
            param,
            kind,
            lent,
            column,
            inner: None,
            weight: weight_of(of),
            kinds,
            value: one_or_tuple(alloc, letters.as_slice())?,
            letters,
            fields,
        })
    }

    /// Puts a struct of this name around the column of the values.
    pub fn surround(&mut self, column: String) {
        let inner = std::mem::replace(&mut self.column, column);
        self.inner = Some(inner);
    }

    /// Returns whether the variant has fields.
    pub fn has_value(&self) -> bool {
        !self.letters.is_empty()
    }

    /// Returns the variant of the enum or of its rows, with its value, if it has one.
    pub fn of(&self, alloc: Global, name: &str, value: &str) -> Result<String, AllocError> {
        let variant = self.name.as_str();
        if self.has_value() {
            format!(in alloc; "{name}::{variant}({value})")
        } else {
            format!(in alloc; "{name}::{variant}")
        }
    }

    // Returns the meaning or the validity (`member`) of the value, for the enum or for its rows.
    fn term(&self, alloc: Global, is_row: bool, member: &str) -> Result<String, AllocError> {
        if is_row {
            format!(in alloc; "{}.{member} a", self.param)
        } else {
            format!(in alloc; "⟦<{} as Item>⟧.{member} {}", self.kind, self.value)
        }
    }

    // Returns the letters of the fields, or the one letter of a row's value.
    fn letters(&self, alloc: Global, is_row: bool) -> Result<String, AllocError> {
        if is_row {
            String::from_str(alloc, "a")
        } else {
            joined(alloc, self.letters.as_slice(), " ")
        }
    }

    /// Returns the `elim` arm with the meaning of variant `number`.
    pub fn meaning(
        &self,
        alloc: Global,
        number: usize,
        is_row: bool,
    ) -> Result<String, AllocError> {
        let name = self.name.as_str();
        if !self.has_value() {
            return format!(in alloc; "{name} ↦ case {number} unit");
        }
        let letters = self.letters(alloc, is_row)?;
        let term = self.term(alloc, is_row, "meaning")?;
        format!(in alloc; "{name} {letters} ↦ case {number} ({term})")
    }

    /// Returns the `elim` arm that says when the variant is valid.
    pub fn valid(&self, alloc: Global, is_row: bool) -> Result<String, AllocError> {
        let name = self.name.as_str();
        if !self.has_value() {
            return format!(in alloc; "{name} ↦ Unit {{0}}");
        }
        let letters = self.letters(alloc, is_row)?;
        let term = self.term(alloc, is_row, "valid")?;
        format!(in alloc; "{name} {letters} ↦ {term}")
    }

    /// Adds the arm that lends a value as a row.
    pub fn add_lent(
        &self,
        alloc: Global,
        lines: &mut Lines,
        own: &str,
        row_name: &str,
    ) -> Result<(), AllocError> {
        let indent = "            ";
        let name = self.name.as_str();
        let function = format!(in alloc; "{row_name}::{name}")?;
        let pattern = self.pattern(alloc, own)?;
        if !self.has_value() {
            return lines.add_path_arm(indent, pattern.as_str(), function.as_str());
        }
        lines.add_arm(&Arm {
            indent,
            pattern: pattern.as_str(),
            fields: self.fields.as_slice(),
            function: function.as_str(),
            argument: self.value.as_str(),
        })
    }

    /// Adds the arm that pushes a value of variant `number` by the references to its fields, with `push`.
    pub fn add_push_of_refs(
        &self,
        alloc: Global,
        lines: &mut Lines,
        own: &str,
        number: usize,
        is_last: bool,
        push: &str,
    ) -> Result<(), AllocError> {
        let indent = "            ";
        let pattern = self.pattern(alloc, own)?;
        if self.fields.is_empty() {
            lines.put(format!(in alloc; "{indent}{pattern} => {{"))?;
        } else {
            let before = format!(in alloc; "{pattern} ")?;
            lines.add_braces(indent, before.as_str(), self.fields.as_slice(), " => {")?;
        }
        let refs = if self.has_value() {
            self.value.as_str()
        } else {
            "&()"
        };
        let this = if is_last { "Last" } else { "Nth::This" };
        lines.put(format!(in alloc; "{indent}    let value = {this}(ByRefs({refs}));"))?;
        for _ in 0..number {
            lines.put(format!(in alloc; "{indent}    let value = Nth::Next(value);"))?;
        }
        lines.put(format!(in alloc; "{indent}    {push}(parts, value)\n{indent}}}"))
    }

    // Returns the pattern of a value, without the fields in braces.
    fn pattern(&self, alloc: Global, own: &str) -> Result<String, AllocError> {
        let name = self.name.as_str();
        if self.has_value() && self.fields.is_empty() {
            let list = joined(alloc, self.letters.as_slice(), ", ")?;
            format!(in alloc; "{own}::{name}({list})")
        } else {
            format!(in alloc; "{own}::{name}")
        }
    }

    /// Returns the type of the references to the fields.
    pub fn refs(&self, alloc: Global) -> Result<String, AllocError> {
        if self.has_value() {
            format!(in alloc; "ByRefs<{}>", self.lent)
        } else {
            String::from_str(alloc, "ByRefs<&'x ()>")
        }
    }

    /// Adds the arm that pushes a row of variant `number`.
    pub fn add_push(
        &self,
        alloc: Global,
        lines: &mut Lines,
        row_name: &str,
        number: usize,
        is_last: bool,
    ) -> Result<(), AllocError> {
        let letter = if self.has_value() { "a" } else { "()" };
        let innermost = if is_last {
            format!(in alloc; "Last({letter})")?
        } else {
            format!(in alloc; "Nth::This({letter})")?
        };
        let pattern = self.of(alloc, row_name, "a")?;
        if number < 4 {
            let argument = next_of(alloc, number, innermost.as_str())?;
            return lines.add_arm(&Arm {
                indent: "            ",
                pattern: pattern.as_str(),
                fields: &[],
                function: "parts.push",
                argument: argument.as_str(),
            });
        }
        lines.put(format!(in alloc;
            "            {pattern} => {{
                let value = {innermost};"
        ))?;
        for _ in 0..number {
            lines.add("                let value = Nth::Next(value);")?;
        }
        lines.add("                parts.push(value)\n            }")
    }

    /// Adds the arm that makes a value from a row.
    pub fn add_value_made(
        &self,
        alloc: Global,
        lines: &mut Lines,
        own: &str,
        row_name: &str,
        is_generic: bool,
    ) -> Result<(), AllocError> {
        let pattern = self.of(alloc, row_name, "a")?;
        if !self.has_value() {
            let value = format!(in alloc; "{own}::{}", self.name)?;
            return lines.add_arm(&Arm {
                indent: "            ",
                pattern: pattern.as_str(),
                fields: &[],
                function: "Ok",
                argument: value.as_str(),
            });
        }
        let kind = self.kind.as_str();
        let made = if is_generic {
            format!(in alloc; "let a: {kind} = a.into_value(alloc)?;")?
        } else {
            format!(in alloc; "let a = <{kind}>::from_row(alloc, a)?;")?
        };
        lines.put(format!(in alloc;
            "            {pattern} => {{
                {made}"
        ))?;
        if self.kinds.len() > 1 {
            lines.put(format!(in alloc; "                let {} = a;", self.value))?;
        }
        self.add_made(alloc, lines, own)?;
        lines.add("            }")
    }

    // Adds the value, made from the letters of its fields.
    fn add_made(&self, alloc: Global, lines: &mut Lines, own: &str) -> Result<(), AllocError> {
        let name = self.name.as_str();
        if self.fields.is_empty() {
            let list = joined(alloc, self.letters.as_slice(), ", ")?;
            return lines.put(format!(in alloc; "                Ok({own}::{name}({list}))"));
        }
        let before = format!(in alloc; "Ok({own}::{name} ")?;
        lines.add_braces(
            "                ",
            before.as_str(),
            self.fields.as_slice(),
            ")",
        )
    }
}

// Returns how many types a text names: one more than it has marks between types. A column of texts has parts too.
fn types_in(text: &str) -> usize {
    let marks = text
        .bytes()
        .filter(|byte| matches!(byte, b'<' | b'(' | b'[' | b','));
    let texts = if text == "String" { 2 } else { 1 };
    marks.count().saturating_add(texts)
}

// Returns how many types the columns of these fields name.
fn weight_of(fields: &[Field]) -> usize {
    let mut weight = 0usize;
    for field in fields {
        let text = match &field.column {
            Some(column) => column.as_str(),
            None => field.kind.as_str(),
        };
        weight = weight.saturating_add(types_in(text));
    }
    weight
}

// Returns the column of a variant's value of this type, which has these fields.
fn column_of(alloc: Global, fields: &[Field], kind: &str) -> Result<String, AllocError> {
    if !fields.iter().any(|field| field.column.is_some()) {
        return format!(in alloc; "ContainerOf<{kind}>");
    }
    let mut columns = Vec::new(alloc);
    for field in fields {
        keep(&mut columns, field.container(alloc)?)?;
    }
    one_or_tuple(alloc, columns.as_slice())
}

// Returns a field that is bound to its letter.
fn named(alloc: Global, field: &Field, letter: &str) -> Result<String, AllocError> {
    let name = field.name.as_str();
    if name == letter {
        String::from_str(alloc, name)
    } else {
        format!(in alloc; "{name}: {letter}")
    }
}

// Wraps a text in `depth` times `Nth::Next`.
fn next_of(alloc: Global, depth: usize, text: &str) -> Result<String, AllocError> {
    let mut all = String::new(alloc);
    for _ in 0..depth {
        all.push_str("Nth::Next(")?;
    }
    all.push_str(text)?;
    for _ in 0..depth {
        all.push(')')?;
    }
    Ok(all)
}
