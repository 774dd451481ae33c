//! The code for an enum.
mod pushes;
mod views;

use crate::attributes::derived;
use crate::cases::Case;
use crate::generics::Generics;
use crate::item::{Description, Value, Variant};
use crate::leaf::Leaf;
use crate::lines::{Header, Lines, WIDTH, each, in_angles, joined, keep};
use crate::names::add_names;
use std::alloc::{AllocError, Global};

/// The code for an enum, and the names in it.
#[derive(Drop)]
pub struct EnumPage<'x> {
    alloc: Global,
    lines: Lines,
    generics: &'x Generics,
    // The name of the enum, the enum with its parameters, the name of the enum of its rows, and that with its parameters.
    name: String,
    own: String,
    row_name: String,
    row: String,
    // What the enum of the rows derives.
    derives: String,
    // Begins the names of aliases; empty if the file has one type.
    prefix: String,
    // The type of the column of all parts, and the type as which its rows are read.
    parts: String,
    rows: String,
    cases: Vec<Case>,
    // A type parameter for each variant with a value.
    params: Vec<String>,
    // The parameters between `<` and `>`; empty without parameters.
    angles: String,
    // The path under which clauses name the items of the file.
    place: String,
}

// Returns a type parameter for each variant with a value.
fn params_of(
    alloc: Global,
    generics: &Generics,
    variants: &[Variant],
) -> Result<Vec<String>, AllocError> {
    let mut count = 0usize;
    let mut taken = Vec::new(alloc);
    for variant in variants {
        keep(&mut taken, String::from_str(alloc, variant.name.as_str())?)?;
        if !matches!(&variant.value, Value::Nothing) {
            count = count.saturating_add(1);
        }
    }
    generics.letters(alloc, count, taken.as_slice())
}

// Returns the variants, which are read as these parameters.
fn cases_of(
    alloc: Global,
    prefix: &str,
    generics: &Generics,
    variants: &[Variant],
    params: &[String],
) -> Result<Vec<Case>, AllocError> {
    let mut cases = Vec::new(alloc);
    let mut left = params.iter();
    for variant in variants {
        let param = match &variant.value {
            Value::Nothing => "()",
            _ => left.next().map_or("()", |param| param.as_str()),
        };
        let param = String::from_str(alloc, param)?;
        let case = Case::new(alloc, prefix, generics, variant, param)?;
        match cases.push(case) {
            Ok(()) => {}
            Err(error) => return Err(AllocError::from(error)),
        }
    }
    Ok(cases)
}

// The columns of values of several parts are structs of their own in an enum of more variants than this, or whose values
// name more types than this. In smaller ones a call has not too many impls to pass.
const FEW_VARIANTS: usize = 6;

const FEW_TYPES: usize = 24;

// Puts a struct around the columns of values of several parts, if the enum of this name is large. `is_whole` says that it has
// no parameters.
fn surround_columns(
    alloc: Global,
    name: &str,
    is_whole: bool,
    cases: &mut [Case],
) -> Result<(), AllocError> {
    let mut weight = 0usize;
    for case in cases.iter() {
        weight = weight.saturating_add(case.weight);
    }
    if !is_whole || (cases.len() <= FEW_VARIANTS && weight <= FEW_TYPES) {
        return Ok(());
    }
    for case in cases.iter_mut() {
        if case.weight > 1 {
            let column = format!(in alloc; "{name}{}Container", case.name.as_str())?;
            case.surround(column);
        }
    }
    Ok(())
}

// Adds the column of the values of a variant, a struct around this column of their parts. The names are those of the enum and
// of the variant.
fn add_leaf_of_values(
    alloc: Global,
    lines: &mut Lines,
    names: (&str, &str),
    prefix: &str,
    inner: &str,
) -> Result<(), AllocError> {
    let (own, variant) = names;
    let prefix = String::from_str(alloc, prefix)?;
    let name = format!(in alloc; "{own}{variant}")?;
    let told = format!(in alloc; "values of `{own}::{variant}`")?;
    let columns = format!(in alloc; "{prefix}Parts")?;
    let alias = format!(in alloc; "type {prefix}Parts =")?;
    let of = format!(in alloc; "{inner};\n")?;
    lines.add_alias(alias.as_str(), of.as_str())?;
    let leaf = Leaf {
        alloc,
        name: name.as_str(),
        told: told.as_str(),
        row: "",
        prefix: prefix.as_str(),
        columns: columns.as_str(),
    };
    leaf.add(lines)?;
    lines.add("")
}

// Returns the columns of the variants.
fn columns_of(alloc: Global, cases: &[Case]) -> Result<Vec<String>, AllocError> {
    let mut columns = Vec::new(alloc);
    for case in cases {
        keep(&mut columns, String::from_str(alloc, case.column.as_str())?)?;
    }
    Ok(columns)
}

// Returns the column of a variant, and the columns of those after it.
fn both_columns(
    alloc: Global,
    column: &str,
    after: Option<String>,
) -> Result<Vec<String>, AllocError> {
    let mut columns = Vec::new(alloc);
    keep(&mut columns, String::from_str(alloc, column)?)?;
    if let Some(others) = after {
        keep(&mut columns, others)?;
    }
    Ok(columns)
}

impl<'x> EnumPage<'x> {
    /// Makes a page without code for an enum with these variants. `prefix` begins the names of aliases. Clauses name the
    /// items of the enum's file under the path `place`.
    pub fn new(
        alloc: Global,
        prefix: &str,
        description: &'x Description,
        variants: &[Variant],
        place: &str,
    ) -> Result<EnumPage<'x>, AllocError> {
        let name = description.name.as_str();
        let generics = &description.generics;
        let params = params_of(alloc, generics, variants)?;
        let mut cases = cases_of(alloc, prefix, generics, variants, params.as_slice())?;
        surround_columns(alloc, name, generics.is_none(), cases.as_mut_slice())?;
        let columns = columns_of(alloc, cases.as_slice())?;
        let used = generics.to_alias(alloc, &[], columns.as_slice())?;
        let given = in_angles(alloc, generics.names(alloc)?.as_slice())?;
        let angles = in_angles(alloc, params.as_slice())?;
        Ok(EnumPage {
            alloc,
            lines: Lines::new(alloc),
            generics,
            name: String::from_str(alloc, name)?,
            own: format!(in alloc; "{name}{given}")?,
            row_name: format!(in alloc; "{name}Reference")?,
            row: format!(in alloc; "{name}Reference{angles}")?,
            derives: derived(alloc, description.derives.as_slice())?,
            prefix: String::from_str(alloc, prefix)?,
            parts: format!(in alloc; "{prefix}Parts{used}")?,
            rows: format!(in alloc; "{prefix}Rows{angles}")?,
            cases,
            params,
            angles,
            place: String::from_str(alloc, place)?,
        })
    }

    /// Returns the whole code.
    pub fn printed(self) -> Result<String, AllocError> {
        let mut page = self;
        page.add_types()?;
        page.add_pushes()?;
        page.add_values()?;
        let EnumPage { lines, .. } = page;
        Ok(lines.into_text())
    }

    // Adds the types, and their meanings.
    fn add_types(&mut self) -> Result<(), AllocError> {
        self.add_head()?;
        self.add_nest()?;
        self.add_row()?;
        self.add_items()?;
        self.add_made_rows()
    }

    // Adds the impls that make values from rows, and the views.
    fn add_values(&mut self) -> Result<(), AllocError> {
        self.add_names()?;
        self.add_owned()?;
        self.add_values_of_rows()?;
        self.add_places()?;
        self.add_views()
    }

    // Adds the column, and the columns of its parts.
    fn add_head(&mut self) -> Result<(), AllocError> {
        let (name, own) = (self.name.as_str(), self.own.as_str());
        let all = self.generics.names(self.alloc)?;
        let params = self.generics.of_alias(self.alloc, &[], all.as_slice())?;
        if !self.generics.is_none() {
            self.lines.put(format!(in self.alloc; "/// A column of values of `{name}`."))?;
            self.lines.add_container(name, params.as_str(), own)?;
        }
        self.lines.add("// The columns of the values, of each variant and of those after it")?;
        self.add_columns()?;
        self.add_kinds(
            "// What values of several fields are made of",
            "ValueOf",
            "",
        )?;
        if self.generics.is_none() {
            self.add_leaves()?;
            self.add_leaf()?;
        }
        Ok(())
    }

    // Adds the column of an enum without parameters.
    fn add_leaf(&mut self) -> Result<(), AllocError> {
        let told = format!(in self.alloc; "values of `{}`", self.name)?;
        let leaf = Leaf {
            alloc: self.alloc,
            name: self.name.as_str(),
            told: told.as_str(),
            row: self.name.as_str(),
            prefix: self.prefix.as_str(),
            columns: self.parts.as_str(),
        };
        leaf.add(&mut self.lines)
    }

    // Adds the columns of the values of variants that are structs.
    fn add_leaves(&mut self) -> Result<(), AllocError> {
        let alloc = self.alloc;
        for case in &self.cases {
            if let Some(inner) = &case.inner {
                let prefix = format!(in alloc; "{}Of{}", self.prefix, case.name)?;
                let (own, name) = (self.name.as_str(), case.name.as_str());
                let (prefix, inner) = (prefix.as_str(), inner.as_str());
                add_leaf_of_values(alloc, &mut self.lines, (own, name), prefix, inner)?;
            }
        }
        Ok(())
    }

    // Adds the columns from each variant on, the last first, and the column of the variants.
    fn add_columns(&mut self) -> Result<(), AllocError> {
        let mut after: Option<String> = None;
        let mut used = Vec::new(self.alloc);
        for number in (0..self.cases.len()).rev() {
            after = self.add_columns_from(number, &mut used, after)?;
        }
        let params = self.generics.of_alias(self.alloc, &[], used.as_slice())?;
        match after {
            Some(name) => self.lines.put(format!(in self.alloc;
                "type {}Parts{params} = Variants<{name}>;\n",
                self.prefix
            )),
            None => Ok(()),
        }
    }

    // Adds the columns of a variant and of those after it, and returns their name. `used` are the columns so far.
    fn add_columns_from(
        &mut self,
        number: usize,
        used: &mut Vec<String>,
        after: Option<String>,
    ) -> Result<Option<String>, AllocError> {
        let Some(case) = self.cases.get(number) else {
            return Ok(after);
        };
        let name = case.name.as_str();
        let columns = both_columns(self.alloc, case.column.as_str(), after)?;
        keep(used, String::from_str(self.alloc, case.column.as_str())?)?;
        let params = self.generics.of_alias(self.alloc, &[], used.as_slice())?;
        let before = format!(in self.alloc; "type {}ColumnsFrom{name}{params} = ", self.prefix)?;
        self.lines
            .add_tuple("", before.as_str(), columns.as_slice(), ";")?;
        self.lines.add("")?;
        let args = self.generics.to_alias(self.alloc, &[], used.as_slice())?;
        let made = format!(in self.alloc; "{}ColumnsFrom{name}{args}", self.prefix)?;
        Ok(Some(made))
    }

    // Adds a type alias for the tuple of fields of each variant with several fields.
    fn add_kinds(&mut self, head: &str, name: &str, before: &str) -> Result<(), AllocError> {
        let mut first = Vec::new(self.alloc);
        if !before.is_empty() {
            keep(&mut first, String::from_str(self.alloc, "'x")?)?;
        }
        let mut begun = false;
        for case in &self.cases {
            if case.kinds.len() < 2 {
                continue;
            }
            if !begun {
                self.lines.add(head)?;
                begun = true;
            }
            let kinds = each(self.alloc, case.kinds.as_slice(), before, "")?;
            let params = self
                .generics
                .of_alias(self.alloc, first.as_slice(), kinds.as_slice())?;
            let line = format!(in self.alloc;
                "type {}{name}{}{params} = ",
                self.prefix, case.name
            )?;
            self.lines
                .add_tuple("", line.as_str(), kinds.as_slice(), ";")?;
            self.lines.add("")?;
        }
        Ok(())
    }

    // Adds the type as which rows are read.
    fn add_nest(&mut self) -> Result<(), AllocError> {
        let mut items = Vec::new(self.alloc);
        for case in &self.cases {
            keep(
                &mut items,
                String::from_str(self.alloc, case.param.as_str())?,
            )?;
        }
        let Some(last) = items.pop() else {
            return Ok(());
        };
        let before = format!(in self.alloc; "type {} = ", self.rows)?;
        let last = format!(in self.alloc; "Last<{last}>")?;
        self.lines.add("// What a row is read as")?;
        self.lines
            .add_nest(before.as_str(), items.as_slice(), last.as_str())
    }

    // Adds the enum of the rows.
    fn add_row(&mut self) -> Result<(), AllocError> {
        self.lines.put(format!(in self.alloc;
            "
/// What stands for a value of `{}` in a column.
#[derive({})]
pub enum {} {{",
            self.name, self.derives, self.row
        ))?;
        for case in &self.cases {
            let name = case.name.as_str();
            if case.has_value() {
                self.lines
                    .put(format!(in self.alloc; "    {name}({}),", case.param))?;
            } else {
                self.lines.put(format!(in self.alloc; "    {name},"))?;
            }
        }
        self.lines.add("}\n")
    }

    // Returns the arms with the meanings of the variants, for the enum or for its rows.
    fn meanings(&self, is_row: bool) -> Result<String, AllocError> {
        let mut arms = Vec::new(self.alloc);
        for (number, case) in self.cases.iter().enumerate() {
            keep(&mut arms, case.meaning(self.alloc, number, is_row)?)?;
        }
        joined(self.alloc, arms.as_slice(), " | ")
    }

    // Returns the arms that say when the variants are valid, for the enum or for its rows.
    fn valid_ones(&self, is_row: bool) -> Result<String, AllocError> {
        let mut arms = Vec::new(self.alloc);
        for case in &self.cases {
            keep(&mut arms, case.valid(self.alloc, is_row)?)?;
        }
        joined(self.alloc, arms.as_slice(), " | ")
    }

    // Returns the type of a read row whose values have the types of those of the enum, or of its rows.
    fn read_as(&self, is_row: bool) -> Result<String, AllocError> {
        if is_row {
            return String::from_str(self.alloc, self.rows.as_str());
        }
        let mut kinds = Vec::new(self.alloc);
        for case in &self.cases {
            if case.has_value() {
                keep(
                    &mut kinds,
                    String::from_str(self.alloc, case.kind.as_str())?,
                )?;
            }
        }
        let angles = in_angles(self.alloc, kinds.as_slice())?;
        format!(in self.alloc; "{}Rows{angles}", self.prefix)
    }

    // Adds the impl of `Item` for values or for rows.
    fn add_item(&mut self, is_row: bool) -> Result<(), AllocError> {
        let has_all = self.cases.iter().all(|case| case.has_value());
        let names = joined(self.alloc, self.names()?.as_slice(), ", ")?;
        let rows = if has_all { "Row" } else { "Row, unit" };
        let mut own = String::from_str(self.alloc, self.name.as_str())?;
        if is_row {
            own.push_str("Reference")?;
        }
        let module = if is_row { ".rows" } else { "" };
        let meaning = self.meanings(is_row)?;
        let valid = self.valid_ones(is_row)?;
        let read = self.read_as(is_row)?;
        let place = self.place.as_str();
        self.lines.put(format!(in self.alloc;
            "    ghost use Rattle.columnar.specs.Row.{{{rows}}};
    ghost use Rattle.columnar.specs.Variants.{{case}};
    ghost use {place}{module}.{own}.TheVariants.{{{names}}};

    ghost meaning = {{ λ s. elim s as (λ v. Row) [ {meaning} ] }};

    ghost valid = {{ λ s. elim s as (λ v. Type 0) [ {valid} ] }};

    ghost unbuffered = {{ ⟦<{read} as Item>⟧.unbuffered }};
}}
"
        ))
    }

    fn add_items(&mut self) -> Result<(), AllocError> {
        self.lines.add_impl(
            &Header {
                params: self.generics.declared(self.alloc, "")?.as_slice(),
                trait_name: "Item",
                of: &[],
                own: self.own.as_str(),
                after: "",
            },
            self.generics.bounds.as_slice(),
        )?;
        self.add_item(false)?;
        let params = each(self.alloc, self.params.as_slice(), "", ": Item")?;
        self.lines.add_header(&Header {
            params: params.as_slice(),
            trait_name: "Item",
            of: &[],
            own: self.row.as_str(),
            after: " {",
        })?;
        self.add_item(true)
    }

    // Returns the parameters of the enum, each type with one more bound unless it is empty, and then those of its row with
    // these bounds.
    fn all_params(&self, more: &str, bounds: &str) -> Result<Vec<String>, AllocError> {
        let mut all = self.generics.declared(self.alloc, more)?;
        for param in &self.params {
            keep(&mut all, format!(in self.alloc; "{param}{bounds}")?)?;
        }
        Ok(all)
    }

    // Adds the impl that makes rows, variant by variant.
    fn add_made_rows(&mut self) -> Result<(), AllocError> {
        let params = self.all_params("", ": Item")?;
        self.lines.add_impl(
            &Header {
                params: params.as_slice(),
                trait_name: "MakeRow",
                of: &[String::from_str(self.alloc, self.rows.as_str())?],
                own: self.own.as_str(),
                after: "",
            },
            self.generics.bounds.as_slice(),
        )?;
        self.lines.put(format!(in self.alloc;
            "    type Row = {};

    fn make_row(row: {}) -> Self::Row {{",
            self.row, self.rows
        ))?;
        let count = self.cases.len();
        for number in 0..count {
            self.add_made_row(number, number.saturating_add(1) == count)?;
        }
        self.lines.add("    }\n}\n")
    }

    // Adds the lines that make the row of a variant, or go on to the next one.
    fn add_made_row(&mut self, number: usize, is_last: bool) -> Result<(), AllocError> {
        let Some(case) = self.cases.get(number) else {
            return Ok(());
        };
        let made = case.of(self.alloc, self.row_name.as_str(), "a")?;
        let letter = if case.has_value() { "a" } else { "()" };
        if is_last {
            return self.lines.put(format!(in self.alloc;
                "        let Last({letter}) = row;
        {made}"
            ));
        }
        let pattern = format!(in self.alloc; "Nth::This({letter})")?;
        let value = format!(in self.alloc; "return {made}")?;
        self.lines.add("        let row = match row {")?;
        self.lines
            .add_path_arm("            ", pattern.as_str(), value.as_str())?;
        self.lines
            .add("            Nth::Next(row) => row,\n        };")
    }

    // Returns the names of the variants.
    fn names(&self) -> Result<Vec<String>, AllocError> {
        let mut names = Vec::new(self.alloc);
        for case in &self.cases {
            keep(
                &mut names,
                String::from_str(self.alloc, case.name.as_str())?,
            )?;
        }
        Ok(names)
    }

    fn add_names(&mut self) -> Result<(), AllocError> {
        let names = self.names()?;
        add_names(
            self.alloc,
            &mut self.lines,
            self.own.as_str(),
            self.generics,
            names.as_slice(),
        )
    }

    // Adds the column of the values, with the rows that have no value.
    fn add_owned(&mut self) -> Result<(), AllocError> {
        let own = self.own.as_str();
        let mut unfit = String::new(self.alloc);
        let mut begun = 0usize;
        for (i, case) in self.cases.iter().enumerate() {
            if case.has_value() {
                let kind = case.kind.as_str();
                let one = format!(in self.alloc;
                    "of_variant {i} (⟦<{kind} as Columnar>⟧.unfit u) r"
                )?;
                if !unfit.as_str().is_empty() {
                    unfit.push_str(" || (")?;
                    begun = begun.saturating_add(1);
                }
                unfit.push_str(one.as_str())?;
            }
        }
        for _ in 0..begun {
            unfit.push(')')?;
        }
        let container = if self.generics.is_none() {
            format!(in self.alloc; "{}Container", self.name)?
        } else {
            format!(in self.alloc; "OwnRows<{}, {own}>", self.parts)?
        };
        let imports = if self.params.is_empty() {
            unfit.push_str("false")?;
            "    ghost use Rattle.std.specs.Prelude.{false};"
        } else if begun == 0 {
            "    ghost use Rattle.columnar.specs.Variants.{of_variant};"
        } else {
            "    ghost use Rattle.std.specs.Prelude.{◌||◌};
    ghost use Rattle.columnar.specs.Variants.{of_variant};"
        };
        self.lines.add_impl(
            &Header {
                params: self.generics.declared(self.alloc, "")?.as_slice(),
                trait_name: "Columnar",
                of: &[],
                own,
                after: "",
            },
            self.generics.bounds.as_slice(),
        )?;
        self.lines.put(format!(in self.alloc;
            "{imports}

    ghost unfit = {{ λ u r. {unfit} }};

    type Container = {container};
}}
"
        ))
    }

    // Returns the bounds: the value of each variant can be made from a row.
    fn from_bounds(&self) -> Result<Vec<String>, AllocError> {
        let mut bounds = self.generics.where_bounds(self.alloc)?;
        for case in self.cases.iter().filter(|case| case.has_value()) {
            let (kind, param) = (case.kind.as_str(), case.param.as_str());
            let bound = if self.generics.is_none() {
                format!(in self.alloc; "{kind}: FromRow<{param}>")?
            } else {
                format!(in self.alloc; "{param}: IntoValue<{kind}>")?
            };
            keep(&mut bounds, bound)?;
        }
        Ok(bounds)
    }

    // Adds the beginning of the function that makes values from rows.
    fn add_from_row(&mut self) -> Result<(), AllocError> {
        let bounds = self.from_bounds()?;
        let params = self.all_params("Drop", ": Item")?;
        let row = format!(in self.alloc; "OwnRow<{}, {}>", self.rows, self.own)?;
        let mut of = Vec::new(self.alloc);
        let alloc = if self.params.is_empty() {
            "_alloc"
        } else {
            "alloc"
        };
        keep(&mut of, format!(in self.alloc; "{alloc}: Global")?)?;
        keep(&mut of, format!(in self.alloc; "row: {row}")?)?;
        self.lines.add_impl(
            &Header {
                params: params.as_slice(),
                trait_name: "FromRow",
                of: &[row],
                own: self.own.as_str(),
                after: "",
            },
            bounds.as_slice(),
        )?;
        self.lines.add_list(
            "    ",
            "fn from_row(",
            of.as_slice(),
            ") -> Result<Self, OwnError> {",
            WIDTH,
        )
    }

    // Adds the impl that makes values from rows.
    fn add_values_of_rows(&mut self) -> Result<(), AllocError> {
        self.add_from_row()?;
        self.lines.add("        match row.show() {")?;
        let is_generic = !self.generics.is_none();
        let own = self.name.as_str();
        let row_name = self.row_name.as_str();
        for case in &self.cases {
            case.add_value_made(self.alloc, &mut self.lines, own, row_name, is_generic)?;
        }
        self.lines.add("        }\n    }\n}")
    }
}
