//! What the column takes, and writes in place.
use super::{Block, Leaf, kept};
use crate::lines::{Lines, keep};
use std::alloc::AllocError;

// An impl that takes items of one type parameter.
fn add_taking(
    leaf: &Leaf<'_>,
    lines: &mut Lines,
    param: Result<String, AllocError>,
    trait_name: &str,
    body: &str,
) -> Result<(), AllocError> {
    let params = leaf.one(param)?;
    let of = kept(leaf.alloc, &["T"])?;
    leaf.add_block(
        lines,
        &Block {
            own: "Container",
            params: params.as_slice(),
            trait_name,
            of: of.as_slice(),
            bounds: &[],
            body,
        },
    )
}

impl Leaf<'_> {
    // Adds pushes, and the test for equal rows.
    pub(super) fn add_pushes(&self, lines: &mut Lines) -> Result<(), AllocError> {
        let (alloc, row, columns) = (self.alloc, self.row, self.columns);
        add_taking(
            self,
            lines,
            format!(in alloc; "T: PushParts<{columns}, {row}> + Drop"),
            "Push",
            "    fn push(&mut self, item: T) -> Result<(), GrowError> {
        self.push_ref(&item)
    }",
        )?;
        add_taking(
            self,
            lines,
            format!(in alloc; "T: PushParts<{columns}, {row}>"),
            "PushRef",
            "    fn push_ref(&mut self, item: &T) -> Result<(), GrowError> {
        item.push_parts(&mut self.parts)
    }",
        )?;
        add_taking(
            self,
            lines,
            format!(in alloc; "T: SameParts<{columns}, {row}>"),
            "SameAs",
            "    fn same(&self, at: usize, item: &T) -> bool {
        item.same_parts(&self.parts, at)
    }",
        )
    }

    // Adds pushes of what the columns of the parts take.
    pub(super) fn add_part_pushes(&self, lines: &mut Lines) -> Result<(), AllocError> {
        self.add_part_push(
            lines,
            "T: Item + Drop",
            "Push",
            "    fn push(&mut self, item: T) -> Result<(), GrowError> {
        self.parts.push(item)
    }",
        )?;
        self.add_part_push(
            lines,
            "T: Item",
            "PushRef",
            "    fn push_ref(&mut self, item: &T) -> Result<(), GrowError> {
        self.parts.push_ref(item)
    }",
        )
    }

    // Adds one of these pushes.
    fn add_part_push(
        &self,
        lines: &mut Lines,
        param: &str,
        trait_name: &str,
        body: &str,
    ) -> Result<(), AllocError> {
        let params = kept(self.alloc, &[param])?;
        let of = kept(self.alloc, &["T"])?;
        let bounds = self.one(format!(in self.alloc; "{}: {trait_name}<T>", self.columns))?;
        self.add_block(
            lines,
            &Block {
                own: "Container",
                params: params.as_slice(),
                trait_name,
                of: of.as_slice(),
                bounds: bounds.as_slice(),
                body,
            },
        )
    }

    // Adds writes in place.
    pub(super) fn add_cells(&self, lines: &mut Lines) -> Result<(), AllocError> {
        self.add_set_rows(lines)?;
        self.add_set_items(lines)?;
        self.add_lent(lines)
    }

    // Adds writes of items at a place of a row.
    fn add_set_items(&self, lines: &mut Lines) -> Result<(), AllocError> {
        let (alloc, columns) = (self.alloc, self.columns);
        let params = kept(alloc, &["A", "T: Item"])?;
        let of = kept(alloc, &["A", "T"])?;
        let bounds = self.one(format!(in alloc; "{columns}: SetItem<A, T>"))?;
        let body = format!(in alloc;
            "    ghost fits = {{ ⟦<{columns} as SetItem<A, T>>⟧.fits }};

    ghost put = {{ ⟦<{columns} as SetItem<A, T>>⟧.put }};

    fn may_set_item(&self, index: usize, at: A, item: &T) -> bool {{
        self.parts.may_set_item(index, at, item)
    }}

    fn set_item(&mut self, index: usize, at: A, item: T) {{
        self.parts.set_item(index, at, item);
    }}"
        )?;
        self.add_block(
            lines,
            &Block {
                own: "Container",
                params: params.as_slice(),
                trait_name: "SetItem",
                of: of.as_slice(),
                bounds: bounds.as_slice(),
                body: body.as_str(),
            },
        )
    }

    // Adds rows that are lent for writes.
    fn add_lent(&self, lines: &mut Lines) -> Result<(), AllocError> {
        let (alloc, name) = (self.alloc, self.name);
        let params = kept(alloc, &["'a"])?;
        let body = format!(in alloc;
            "    ghost use Rattle.std.specs.Prelude.{{◌≡◌}};

    type IndexMut = RowMut<'a, {name}Container>;

    ghost lent = {{ λ s i r. (r.column.ghost_name ≡ s.ghost_name) × ((r.column.now ≡ s.now) × (r.index ≡ i)) }};

    fn get_mut(&'a mut self, index: usize) -> Self::IndexMut {{
        RowMut::new(self, index)
    }}

    fn last_mut(&'a mut self) -> Option<Self::IndexMut> {{
        let count = self.len();
        if count == 0 {{
            None
        }} else {{
            Some(RowMut::new(self, count - 1))
        }}
    }}"
        )?;
        self.add_block(
            lines,
            &Block {
                own: "Container",
                params: params.as_slice(),
                trait_name: "IndexMut",
                of: params.as_slice(),
                bounds: &[],
                body: body.as_str(),
            },
        )
    }

    // Returns the line of a function that is given a row, by the text of its `self` and of its row.
    fn row_function(
        &self,
        name: &str,
        receiver: &str,
        row: Result<String, AllocError>,
        after: &str,
    ) -> Result<String, AllocError> {
        let mut given = Vec::new(self.alloc);
        keep(&mut given, String::from_str(self.alloc, receiver)?)?;
        keep(&mut given, String::from_str(self.alloc, "index: usize")?)?;
        keep(&mut given, row?)?;
        self.function(name, given.as_slice(), after)
    }

    // Adds writes of rows.
    fn add_set_rows(&self, lines: &mut Lines) -> Result<(), AllocError> {
        let (alloc, row, columns) = (self.alloc, self.row, self.columns);
        let params = kept(alloc, &["R: Item"])?;
        let of = self.one(format!(in alloc; "OwnRow<R, {row}>"))?;
        let bounds = self.one(format!(in alloc; "{columns}: SetRow<R>"))?;
        let tested = format!(in alloc; "item: &OwnRow<R, {row}>");
        let may = self.row_function("may_set", "&self", tested, ") -> bool {")?;
        let written = format!(in alloc; "item: OwnRow<R, {row}>");
        let set = self.row_function("set_row", "&mut self", written, ") {")?;
        let body = format!(in alloc;
            "    ghost fits = {{ λ r item. ⟦<{columns} as SetRow<R>>⟧.fits r item.parts }};

{may}        self.parts.may_set(index, &item.parts)
    }}

{set}        self.parts.set_row(index, item.parts);
    }}"
        )?;
        self.add_block(
            lines,
            &Block {
                own: "Container",
                params: params.as_slice(),
                trait_name: "SetRow",
                of: of.as_slice(),
                bounds: bounds.as_slice(),
                body: body.as_str(),
            },
        )
    }
}
