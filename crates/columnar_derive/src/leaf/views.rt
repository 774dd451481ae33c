//! The views of the column.
use super::{Block, Leaf, kept};
use crate::lines::{ITEMS, Lines};
use std::alloc::{AllocError, Global};

impl Leaf<'_> {
    // Adds views.
    pub(super) fn add_views(&self, lines: &mut Lines) -> Result<(), AllocError> {
        let Leaf {
            alloc,
            name,
            columns,
            ..
        } = self;
        let of = kept(*alloc, &["'a"])?;
        let read = format!(in *alloc; "<{columns} as Borrow<'a>>::Ref")?;
        let read = self.row_of(read.as_str())?;
        let body = format!(in *alloc;
            "    ghost use Rattle.std.specs.Prelude.{{refl}};

    type Ref = {read};

    type Borrowed = {name}View<'a>;

    type Parts = <{columns} as Borrow<'a>>::Parts;

    ghost same_format = {{ refl }};

    fn borrow(&'a self) -> Self::Borrowed {{
        let parts = self.parts.borrow();
        {name}View {{ parts }}
    }}"
        )?;
        let params = kept(self.alloc, &["'a"])?;
        self.add_block(
            lines,
            &Block {
                own: "Container",
                params: params.as_slice(),
                trait_name: "Borrow",
                of: of.as_slice(),
                bounds: &[],
                body: body.as_str(),
            },
        )
    }

    // Adds an impl for views.
    fn add_of_view(
        &self,
        lines: &mut Lines,
        trait_name: &str,
        of: &[&str],
        body: Result<String, AllocError>,
    ) -> Result<(), AllocError> {
        let body = body?;
        let of = kept(self.alloc, of)?;
        let params = kept(self.alloc, &["'a"])?;
        self.add_block(
            lines,
            &Block {
                own: "View<'a>",
                params: params.as_slice(),
                trait_name,
                of: of.as_slice(),
                bounds: &[],
                body: body.as_str(),
            },
        )
    }

    // Adds the rows of a view.
    pub(super) fn add_view_rows(&self, lines: &mut Lines) -> Result<(), AllocError> {
        let (alloc, name) = (self.alloc, self.name);
        let views = format!(in alloc; "{}PartViews<'a>", self.prefix)?;
        let read = format!(in alloc; "<{views} as Index>::Ref")?;
        let read = self.row_of(read.as_str())?;
        let got = if self.row.is_empty() {
            "self.parts.get(index)"
        } else {
            "OwnRow::new(self.parts.get(index))"
        };
        self.add_of_view(lines, "Column", &[], self.held(views.as_str()))?;
        self.add_of_view(
            lines,
            "Len",
            &[],
            String::from_str(
                alloc,
                "    fn len(&self) -> usize {
        self.parts.len()
    }",
            ),
        )?;
        self.add_of_view(
            lines,
            "Index",
            &[],
            format!(in alloc;
                "    type Ref = {read};

    fn get(&self, index: usize) -> Self::Ref {{
        {got}
    }}"
            ),
        )?;
        let of = kept(alloc, &["'b"])?;
        let body = format!(in alloc;
            "    ghost use Rattle.std.specs.Prelude.{{refl}};

    type Short = {name}View<'b>;

    ghost same_short = {{ refl }};

    fn reborrow(self) -> Self::Short {{
        let parts = self.parts.reborrow();
        {name}View {{ parts }}
    }}"
        )?;
        let params = kept(self.alloc, &["'a: 'b", "'b"])?;
        self.add_block(
            lines,
            &Block {
                own: "View<'a>",
                params: params.as_slice(),
                trait_name: "Reborrow",
                of: of.as_slice(),
                bounds: &[],
                body: body.as_str(),
            },
        )
    }

    // Adds the bytes of a view.
    pub(super) fn add_view_bytes(&self, lines: &mut Lines) -> Result<(), AllocError> {
        let (alloc, name, prefix) = (self.alloc, self.name, self.prefix);
        let views = format!(in alloc; "{prefix}PartViews<'a>")?;
        self.add_of_view(lines, "Stored", &[], self.stored_view())?;
        self.add_of_view(
            lines,
            "Check",
            &[],
            String::from_str(
                alloc,
                "    fn check_from_tallied<L>(&self, from: usize, tally: &mut Tally<L>) -> Result<(), StoreFault> {
        self.parts.check_from_tallied(from, tally)
    }",
            ),
        )?;
        self.add_of_view(
            lines,
            "FromBytes",
            &["'a"],
            format!(in alloc;
                "    fn from_store(store: &DecodedStore<'a>, offset: &mut usize) -> Self {{
        let parts = {prefix}PartViews::from_store(store, offset);
        Self {{ parts }}
    }}"
            ),
        )?;
        self.add_of_view(
            lines,
            "AsBytes",
            &["'a"],
            String::from_str(
                alloc,
                "    fn get_byte_slice(&self, index: usize) -> (u64, ByteSlice<'a>) {
        self.parts.get_byte_slice(index)
    }",
            ),
        )
    }

    // Returns what a view says of its bytes, with the clauses of the trait: the language gives them to no type that has a
    // lifetime and no other parameter.
    fn stored_view(&self) -> Result<String, AllocError> {
        let of = format!(in self.alloc; "{}PartViews", self.prefix)?;
        let own = format!(in self.alloc; "⟦<{}View<'a> as Column>⟧.format", self.name)?;
        let mut text = self.view_sizes(of.as_str(), own.as_str())?;
        text.push_str(self.view_judged(of.as_str(), own.as_str())?.as_str())?;
        Ok(text)
    }

    // Returns the numbers and sizes of the slices of a view.
    fn view_sizes(&self, of: &str, own: &str) -> Result<String, AllocError> {
        format!(in self.alloc;
            "    ghost use Rattle.std.specs.Prelude.{{◌≡◌, ◌+◌, ◌*◌, ◌≤◌, ◌++◌, IsTrue, length, drop, OnOk, OnErr, IfErr}};
    ghost use Rattle.columnar.specs.ColumnLaws.{{counted_columns, storable_columns}};
    ghost use Rattle.columnar.specs.Faults.{{verdict}};
    ghost use Rattle.columnar.specs.Format.{{Fits, bytes_held, first, moved, representable}};
    ghost use Rattle.columnar.specs.Store.{{slices_in}};

    ghost storable = {{ Prim.search storable_columns depth 64 fits 10000 }};

    ghost counted = {{ λ c. Prim.search counted_columns depth 64 fits 10000 }};

    fn slice_count() -> usize
        requires {{ IsTrue (representable {own}) }}
        ensures {{ result ≡ {own}.count }}
    {{
        {of}::slice_count()
    }}

    fn element_sizes(sizes: &mut Vec<usize>) -> Result<(), GrowError>
        requires {{ IsTrue (representable {own}) }}
        ensures ok {{ OnOk result (sizes.new.items ≡ sizes.old.items ++ {own}.sizes) }}
        ensures err {{ OnErr result (sizes.new.items ≡ sizes.old.items) }}
        ensures memory {{ IfErr result (λ e. e ≡ GrowError.Memory) }}
    {{
        {of}::element_sizes(sizes)
    }}

"
        )
    }

    // Returns the test of the slices of a view, and their number of rows.
    fn view_judged(&self, of: &str, own: &str) -> Result<String, AllocError> {
        let mut lines = Lines::new(self.alloc);
        let before = format!(in self.alloc; "{of}::judge_tallied(")?;
        let arguments = kept(self.alloc, &["store", "offset", "tally"])?;
        lines.add_list(
            "        ",
            before.as_str(),
            arguments.as_slice(),
            ")",
            ITEMS,
        )?;
        let tested = lines.into_text();
        format!(in self.alloc;
            "    fn judge_tallied<L>(
        store: &DecodedStore<'_>,
        offset: usize,
        tally: &mut Tally<L>,
    ) -> Result<(), StoreFault>
        requires representable {{ IsTrue (representable {own}) }}
        requires room {{ offset + {own}.count ≤ length (slices_in store.now) }}
        ensures exact {{ verdict result ≡ first (moved offset ({own}.broken ({own}.build (drop offset (slices_in store.now))))) }}
        ensures turns {{ tally.new.turns ≤ tally.old.turns + {own}.turns * bytes_held ({own}.build (drop offset (slices_in store.now))) }}
    {{
{tested}    }}

    fn rows_in(store: &DecodedStore<'_>, offset: usize) -> usize
        requires representable {{ IsTrue (representable {own}) }}
        requires fits {{ Fits {own} offset (slices_in store.now) }}
        ensures {{ result ≡ length ({own}.rows ({own}.build (drop offset (slices_in store.now)))) }}
    {{
        {of}::rows_in(store, offset)
    }}"
        )
    }
}
