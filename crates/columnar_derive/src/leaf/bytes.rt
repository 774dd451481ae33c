//! The bytes of a column of a type without parameters.
use super::{Block, Leaf, kept};
use crate::lines::{ITEMS, Lines};
use std::alloc::AllocError;

impl Leaf<'_> {
    // Returns what a column of this type of parts says of its bytes.
    pub(super) fn stored(&self, called: &str) -> Result<String, AllocError> {
        let alloc = self.alloc;
        let mut lines = Lines::new(alloc);
        let before = format!(in alloc; "{called}::judge_tallied(")?;
        let arguments = kept(alloc, &["store", "offset", "tally"])?;
        lines.add_list(
            "        ",
            before.as_str(),
            arguments.as_slice(),
            ")",
            ITEMS,
        )?;
        let tested = lines.into_text();
        format!(in alloc;
            "    ghost use Rattle.columnar.specs.ColumnLaws.{{counted_columns, storable_columns}};

    ghost storable = {{ Prim.search storable_columns depth 64 fits 10000 }};

    ghost counted = {{ λ c. Prim.search counted_columns depth 64 fits 10000 }};

    fn slice_count() -> usize {{
        {called}::slice_count()
    }}

    fn element_sizes(sizes: &mut Vec<usize>) -> Result<(), GrowError> {{
        {called}::element_sizes(sizes)
    }}

    fn judge_tallied<L>(
        store: &DecodedStore<'_>,
        offset: usize,
        tally: &mut Tally<L>,
    ) -> Result<(), StoreFault> {{
{tested}    }}

    fn rows_in(store: &DecodedStore<'_>, offset: usize) -> usize {{
        {called}::rows_in(store, offset)
    }}"
        )
    }

    // Returns how the slices of a column of this type of parts are lent and loaded.
    pub(super) fn loaded(&self, columns: &str) -> Result<String, AllocError> {
        format!(in self.alloc;
            "    fn byte_slice(&self, index: usize) -> ByteSlice<'_> {{
        self.parts.byte_slice(index)
    }}

    fn load(alloc: Global, store: &DecodedStore<'_>, offset: usize) -> Result<Self, GrowError> {{
        let parts = {columns}::load(alloc, store, offset)?;
        Ok(Self {{ parts }})
    }}"
        )
    }

    // Adds an impl for the earlier form.
    fn add_of_old(
        &self,
        lines: &mut Lines,
        trait_name: &str,
        body: Result<String, AllocError>,
    ) -> Result<(), AllocError> {
        let body = body?;
        self.add_block(
            lines,
            &Block {
                own: "Old",
                params: &[],
                trait_name,
                of: &[],
                bounds: &[],
                body: body.as_str(),
            },
        )
    }

    // Adds the earlier form.
    fn add_old(&self, lines: &mut Lines) -> Result<(), AllocError> {
        let Leaf {
            alloc,
            name,
            told,
            prefix,
            columns,
            ..
        } = self;
        lines.put(format!(in *alloc;
            "
// The earlier form of the columns of the parts
type {prefix}OldColumns = <{columns} as Earlier>::Old;

/// A column of {told} in its earlier form.
#[derive(Drop)]
pub struct {name}Old {{
    /// The column of their parts.
    pub parts: {prefix}OldColumns,
}}"
        ))?;
        let old = format!(in *alloc; "{prefix}OldColumns")?;
        let old = old.as_str();
        self.add_of_old(lines, "Column", self.held(old))?;
        self.add_of_old(lines, "Stored", self.stored(old))?;
        self.add_of_old(lines, "ContainerBytes", self.loaded(old))
    }

    // Adds the bytes.
    pub(super) fn add_bytes(&self, lines: &mut Lines) -> Result<(), AllocError> {
        let Leaf {
            alloc,
            name,
            columns,
            ..
        } = self;
        self.add_plain(lines, "Stored", self.stored(columns))?;
        self.add_plain(lines, "ContainerBytes", self.loaded(columns))?;
        self.add_old(lines)?;
        self.add_plain(
            lines,
            "Earlier",
            format!(in *alloc;
                "    ghost use Rattle.columnar.specs.ColumnLaws.{{earlier_columns}};

    type Old = {name}Old;

    ghost earlier = {{ Prim.search earlier_columns depth 64 fits 10000 }};

    fn from_old(alloc: Global, old: Self::Old) -> Result<Self, GrowError> {{
        let parts = {columns}::from_old(alloc, old.parts)?;
        Ok(Self {{ parts }})
    }}"
            ),
        )?;
        self.add_slice_names(lines)
    }

    // Adds the names of the slices.
    fn add_slice_names(&self, lines: &mut Lines) -> Result<(), AllocError> {
        let (alloc, columns) = (self.alloc, self.columns);
        let of = if self.row.is_empty() {
            String::from_str(alloc, columns)?
        } else {
            format!(in alloc; "OwnRows<{columns}, {}>", self.row)?
        };
        let called = if self.row.is_empty() {
            String::from_str(alloc, columns)?
        } else {
            format!(in alloc; "<{}>", of.as_str())?
        };
        self.add_plain(
            lines,
            "SliceNames",
            format!(in alloc;
                "    ghost names_at = {{ ⟦<{} as SliceNames>⟧.names_at }};

    fn push_names(alloc: Global, path: &str, names: &mut Vec<String>) -> Result<(), GrowError> {{
        {}::push_names(alloc, path, names)
    }}",
                of.as_str(),
                called.as_str()
            ),
        )
    }
}
