//! The column of a type without parameters, or of the values of a variant: a struct around the column of the parts.
mod bytes;
mod calls;
mod views;

use crate::lines::{Header, ITEMS, Lines, WIDTH, keep};
use std::alloc::{AllocError, Global};

/// The column of a type, and the names in its code.
#[derive(Clone, Copy)]
pub struct Leaf<'x> {
    pub alloc: Global,
    /// Begins the name of the column: the name of the type, and that of the variant.
    pub name: &'x str,
    /// What it is a column of, in words.
    pub told: &'x str,
    /// The type that its rows name; empty if they are those of the parts.
    pub row: &'x str,
    /// Begins the names of aliases; empty if the file has one type.
    pub prefix: &'x str,
    /// The alias of the column of the parts.
    pub columns: &'x str,
}

// An impl for a leaf.
#[derive(Clone, Copy)]
struct Block<'x> {
    // Ends the name of the type, after that of the values.
    own: &'x str,
    params: &'x [String],
    trait_name: &'x str,
    of: &'x [String],
    bounds: &'x [String],
    // The lines between the braces.
    body: &'x str,
}

// Returns the texts as strings.
fn kept(alloc: Global, texts: &[&str]) -> Result<Vec<String>, AllocError> {
    let mut all = Vec::new(alloc);
    for text in texts {
        keep(&mut all, String::from_str(alloc, text)?)?;
    }
    Ok(all)
}

impl<'x> Leaf<'x> {
    /// Adds the column, and all that it does.
    pub fn add(&self, lines: &mut Lines) -> Result<(), AllocError> {
        self.add_types(lines)?;
        self.add_rows(lines)?;
        self.add_cuts(lines)?;
        self.add_reserved(lines)?;
        self.add_views(lines)?;
        self.add_view_rows(lines)?;
        self.add_view_bytes(lines)?;
        self.add_bytes(lines)?;
        if self.row.is_empty() {
            self.add_part_pushes(lines)
        } else {
            self.add_pushes(lines)?;
            self.add_cells(lines)
        }
    }

    // Returns the type of a row, by that of the parts, and the row, by its parts.
    fn row_of(&self, kind: &str) -> Result<String, AllocError> {
        if self.row.is_empty() {
            String::from_str(self.alloc, kind)
        } else {
            format!(in self.alloc; "OwnRow<{kind}, {}>", self.row)
        }
    }

    // Adds the aliases of views, and the struct.
    fn add_types(&self, lines: &mut Lines) -> Result<(), AllocError> {
        let Leaf {
            alloc,
            name,
            told,
            prefix,
            columns,
            ..
        } = self;
        lines.put(format!(in *alloc;
            "// The columns of the parts in a view
type {prefix}PartViews<'a> = <{columns} as Borrow<'a>>::Borrowed;

/// A view of a column of {told}.
#[derive(Clone, Copy)]
pub struct {name}View<'a> {{
    /// The view of the column of their parts.
    pub parts: {prefix}PartViews<'a>,
}}

/// A column of {told}.
#[derive(Drop)]
pub struct {name}Container {{
    /// The column of their parts.
    pub parts: {columns},
}}"
        ))
    }

    // Adds an impl.
    fn add_block(&self, lines: &mut Lines, block: &Block<'_>) -> Result<(), AllocError> {
        let alloc = self.alloc;
        let own = format!(in alloc; "{}{}", self.name, block.own)?;
        lines.add("")?;
        lines.add_impl(
            &Header {
                params: block.params,
                trait_name: block.trait_name,
                of: block.of,
                own: own.as_str(),
                after: "",
            },
            block.bounds,
        )?;
        lines.add(block.body)?;
        lines.add("}")
    }

    // Adds an impl of a trait without parameters.
    fn add_plain(
        &self,
        lines: &mut Lines,
        trait_name: &str,
        body: Result<String, AllocError>,
    ) -> Result<(), AllocError> {
        let body = body?;
        self.add_block(
            lines,
            &Block {
                own: "Container",
                params: &[],
                trait_name,
                of: &[],
                bounds: &[],
                body: body.as_str(),
            },
        )
    }

    // Returns an argument of a trait.
    fn one(&self, text: Result<String, AllocError>) -> Result<Vec<String>, AllocError> {
        let mut all = Vec::new(self.alloc);
        keep(&mut all, text?)?;
        Ok(all)
    }

    // Returns the function of the columns that is called on these arguments, and what follows.
    fn called(
        &self,
        function: &str,
        arguments: &[&str],
        after: &str,
    ) -> Result<String, AllocError> {
        let mut lines = Lines::new(self.alloc);
        let before = format!(in self.alloc; "{}::{function}(", self.columns)?;
        let arguments = kept(self.alloc, arguments)?;
        lines.add_list(
            "        ",
            before.as_str(),
            arguments.as_slice(),
            after,
            ITEMS,
        )?;
        Ok(lines.into_text())
    }

    // Returns the line of a function with these parameters.
    fn function(&self, name: &str, params: &[String], after: &str) -> Result<String, AllocError> {
        let mut lines = Lines::new(self.alloc);
        let before = format!(in self.alloc; "fn {name}(")?;
        lines.add_list("    ", before.as_str(), params, after, WIDTH)?;
        Ok(lines.into_text())
    }

    // Returns what a column or a view of this type of parts holds.
    fn held(&self, columns: &str) -> Result<String, AllocError> {
        format!(in self.alloc;
            "    ghost format = {{ ⟦<{columns} as Column>⟧.format }};

    ghost content = {{ λ c. ⟦<{columns} as Column>⟧.content c.parts }};

    ghost room = {{ λ c. ⟦<{columns} as Column>⟧.room c.parts }};"
        )
    }

    // Adds the rows, and their number.
    fn add_rows(&self, lines: &mut Lines) -> Result<(), AllocError> {
        let columns = self.columns;
        self.add_plain(lines, "Column", self.held(columns))?;
        self.add_plain(
            lines,
            "Len",
            String::from_str(
                self.alloc,
                "    fn len(&self) -> usize {
        self.parts.len()
    }",
            ),
        )
    }

    // Adds cuts, and columns without rows.
    fn add_cuts(&self, lines: &mut Lines) -> Result<(), AllocError> {
        let (alloc, columns) = (self.alloc, self.columns);
        self.add_plain(
            lines,
            "Clear",
            String::from_str(
                alloc,
                "    fn clear(&mut self) {
        self.parts.clear();
    }",
            ),
        )?;
        self.add_plain(
            lines,
            "Truncate",
            format!(in alloc;
                "    ghost use Rattle.columnar.specs.ColumnLaws.{{lawful_columns}};

    ghost lawful = {{ Prim.search lawful_columns depth 64 fits 10000 }};

    fn truncate(&mut self, n: usize) {{
        self.parts.truncate(n);
    }}"
            ),
        )?;
        self.add_plain(
            lines,
            "Storage",
            format!(in alloc;
                "    fn empty(alloc: Global) -> Self {{
        let parts = {columns}::empty(alloc);
        Self {{ parts }}
    }}

    fn duplicate(&self, alloc: Global) -> Result<Self, GrowError> {{
        let parts = self.parts.duplicate(alloc)?;
        Ok(Self {{ parts }})
    }}"
            ),
        )?;
        self.add_plain(
            lines,
            "Clone",
            String::from_str(
                alloc,
                "    fn clone(&self) -> Result<Self, AllocError> {
        let parts = self.parts.clone()?;
        Ok(Self { parts })
    }",
            ),
        )
    }

    // Adds reservations, and copies of a view's rows.
    fn add_reserved(&self, lines: &mut Lines) -> Result<(), AllocError> {
        let (alloc, columns) = (self.alloc, self.columns);
        self.add_plain(
            lines,
            "Reserve",
            format!(in alloc;
                "    type Room = <{columns} as Reserve>::Room;

    ghost reserves = {{ ⟦<{columns} as Reserve>⟧.reserves }};

    ghost covers = {{ ⟦<{columns} as Reserve>⟧.covers }};

    fn no_room() -> Self::Room {{
        {columns}::no_room()
    }}

    fn reserve_room(&mut self, room: Self::Room) -> Result<(), GrowError> {{
        self.parts.reserve_room(room)
    }}"
            ),
        )?;
        let of = self.one(format!(in alloc; "{}View<'a>", self.name))?;
        let view = format!(in alloc; "view: {}View<'a>", self.name)?;
        let given = kept(alloc, &["room: Self::Room", view.as_str()])?;
        let added = self.function("add_room", given.as_slice(), ") -> Self::Room {")?;
        let room = self.called("add_room", &["room", "view.parts"], ")")?;
        let given = kept(
            alloc,
            &["&mut self", view.as_str(), "range: std::ops::Range<usize>"],
        )?;
        let copied = self.function(
            "extend_from_self",
            given.as_slice(),
            ") -> Result<(), GrowError> {",
        )?;
        let body = format!(in alloc;
            "{added}{room}    }}

{copied}        self.parts.extend_from_self(view.parts, range)
    }}"
        )?;
        let params = kept(self.alloc, &["'a"])?;
        self.add_block(
            lines,
            &Block {
                own: "Container",
                params: params.as_slice(),
                trait_name: "ExtendFrom",
                of: of.as_slice(),
                bounds: &[],
                body: body.as_str(),
            },
        )
    }
}
