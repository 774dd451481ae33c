//! The code that names the parts of a view: the column of each field, or the values of each variant.
use crate::lines::{Header, Lines, WIDTH, each, keep};
use std::alloc::{AllocError, Global};

/// A part of a view.
#[derive(Debug, Drop)]
pub struct View {
    /// The name of the method that returns it.
    pub method: String,
    /// What the method returns, in words.
    pub told: String,
    /// The function that picks its rows out of those of the whole, in the syntax of clauses.
    pub rows: String,
    /// The value of the method.
    pub value: String,
}

/// The parts of the views of a type.
#[derive(Clone, Copy)]
pub struct Views<'x> {
    /// The name of the type.
    pub own: &'x str,
    /// What the trait is for, in words.
    pub told: &'x str,
    /// The imports of its clauses.
    pub imports: &'x str,
    /// A type parameter for each part.
    pub params: &'x [String],
    /// The type of each part, if the type has no parameters.
    pub kinds: &'x [String],
    /// The other parameters of the impl, and its bounds.
    pub others: &'x [String],
    pub bounds: &'x [String],
    /// The type of the views.
    pub of: &'x str,
    /// The parts, in order.
    pub parts: &'x [View],
}

impl Views<'_> {
    /// Adds the trait with a method for each part, and its impl for views.
    pub fn add(&self, alloc: Global, lines: &mut Lines) -> Result<(), AllocError> {
        self.add_trait(alloc, lines)?;
        self.add_impl(alloc, lines)
    }

    fn add_trait(&self, alloc: Global, lines: &mut Lines) -> Result<(), AllocError> {
        let bounds = each(alloc, self.params, "", ": Column")?;
        let before = format!(in alloc; "pub trait {}Columns<", self.own)?;
        lines.put(format!(in alloc; "\n/// {}", self.told))?;
        lines.add_list("", before.as_str(), bounds.as_slice(), ">: Column {", WIDTH)?;
        lines.put(format!(in alloc;
            "    ghost use Rattle.std.specs.Prelude.{{◌≡◌}};
    ghost use Rattle.columnar.specs.Format.{{IsSound}};
    ghost use {};",
            self.imports
        ))?;
        for (part, param) in self.parts.iter().zip(self.params.iter()) {
            let View {
                method,
                told,
                rows,
                ..
            } = part;
            lines.put(format!(in alloc;
                "
    /// Returns {told}.
    ///
    /// # Requires
    /// A well-formed view.
    fn {method}(self) -> {param}
        requires {{ IsSound Self.format (Self.content self) }}
        ensures sound {{ IsSound {param}.format ({param}.content result) }}
        ensures rows {{ {param}.format.rows ({param}.content result) ≡ {rows} (Self.format.rows (Self.content self)) }};"
            ))?;
        }
        lines.add("}\n")
    }

    fn add_impl(&self, alloc: Global, lines: &mut Lines) -> Result<(), AllocError> {
        let mut params = each(alloc, self.others, "", "")?;
        let kinds = if self.kinds.is_empty() {
            for param in self.params {
                keep(&mut params, format!(in alloc; "{param}: Column + Copy")?)?;
            }
            self.params
        } else {
            self.kinds
        };
        let name = format!(in alloc; "{}Columns", self.own)?;
        lines.add_impl(
            &Header {
                params: params.as_slice(),
                trait_name: name.as_str(),
                of: kinds,
                own: self.of,
                after: "",
            },
            self.bounds,
        )?;
        for (i, (part, kind)) in self.parts.iter().zip(kinds.iter()).enumerate() {
            if i > 0 {
                lines.add("")?;
            }
            lines.put(format!(in alloc;
                "    fn {}(self) -> {kind} {{
        {}
    }}",
                part.method, part.value
            ))?;
        }
        lines.add("}")
    }
}

/// Adds the alias of each part in a view, and returns their names. These are the columns of the parts; `prefix` begins the
/// names.
pub fn add_kinds(
    alloc: Global,
    lines: &mut Lines,
    prefix: &str,
    columns: &[String],
) -> Result<Vec<String>, AllocError> {
    let mut kinds = Vec::new(alloc);
    lines.add("// The columns of each part in a view")?;
    for (i, column) in columns.iter().enumerate() {
        if i > 0 {
            lines.add("")?;
        }
        let alias = format!(in alloc; "type {prefix}View{i}<'x> =")?;
        let kind = format!(in alloc; "<{column} as Borrow<'x>>::Borrowed;")?;
        lines.add_alias(alias.as_str(), kind.as_str())?;
        keep(&mut kinds, format!(in alloc; "{prefix}View{i}<'x>")?)?;
    }
    Ok(kinds)
}
