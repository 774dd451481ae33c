//! The code for a struct.
use crate::attributes::derived;
use crate::generics::Generics;
use crate::item::{Description, Field, Value};
use crate::leaf::Leaf;
use crate::lines::{Header, Lines, WIDTH, each, in_angles, in_clause, in_tuple, keep};
use crate::names::add_names;
use crate::setters::{Setter, Setters, setter_name};
use crate::views::{View, Views, add_kinds};
use std::alloc::{AllocError, Global};

// How the fields of a struct are written.
#[derive(Clone, Copy, Debug, PartialEq, Eq)]
enum Style {
    Unit,
    Numbered,
    Named,
}

/// The code for a struct, and the names in it.
#[derive(Drop)]
pub struct Page<'x> {
    alloc: Global,
    lines: Lines,
    style: Style,
    generics: &'x Generics,
    // The name of the struct, the struct with its parameters, the name of the struct of its rows, and that with its
    // parameters.
    name: String,
    own: String,
    row_name: String,
    row: String,
    // What the struct of the rows derives.
    derives: String,
    // Begins the names of aliases; empty if the file has one type.
    prefix: String,
    // The alias of the tuple of the fields, or of `()`.
    parts: String,
    // The column of the parts, and the column of each field, if an attribute names one.
    container: String,
    columns: Vec<String>,
    // The names or the numbers of the fields, and their types.
    fields: Vec<String>,
    kinds: Vec<String>,
    // A type parameter for each field, and their tuple.
    params: Vec<String>,
    tuple: String,
}

// Returns how the fields of a value are written, and the fields.
fn fields_of(value: &Value) -> (Style, &[Field]) {
    match value {
        Value::Nothing => (Style::Unit, &[]),
        Value::Types(fields) => (Style::Numbered, fields.as_slice()),
        Value::Fields(fields) => (Style::Named, fields.as_slice()),
    }
}

fn names_of(alloc: Global, fields: &[Field]) -> Result<Vec<String>, AllocError> {
    let mut names = Vec::new(alloc);
    for field in fields {
        keep(&mut names, String::from_str(alloc, field.name.as_str())?)?;
    }
    Ok(names)
}

fn kinds_of(alloc: Global, fields: &[Field]) -> Result<Vec<String>, AllocError> {
    let mut kinds = Vec::new(alloc);
    for field in fields {
        keep(&mut kinds, String::from_str(alloc, field.kind.as_str())?)?;
    }
    Ok(kinds)
}

// Returns the column of the parts, of these columns if there are some.
fn container_of(
    alloc: Global,
    prefix: &str,
    generics: &Generics,
    parts: &str,
    columns: &[String],
) -> Result<String, AllocError> {
    if columns.is_empty() && !generics.is_none() {
        return format!(in alloc; "ContainerOf<{parts}>");
    }
    let used = generics.to_alias(alloc, &[], columns)?;
    format!(in alloc; "{prefix}PartColumns{used}")
}

impl<'x> Page<'x> {
    /// Makes a page without code for a struct with this value. `prefix` begins the names of aliases.
    pub fn new(
        alloc: Global,
        prefix: &str,
        description: &'x Description,
        value: &Value,
    ) -> Result<Page<'x>, AllocError> {
        let name = description.name.as_str();
        let generics = &description.generics;
        let (style, fields) = fields_of(value);
        let kinds = kinds_of(alloc, fields)?;
        let params = generics.letters(alloc, fields.len(), &[])?;
        let given = in_angles(alloc, generics.names(alloc)?.as_slice())?;
        let used = generics.to_alias(alloc, &[], kinds.as_slice())?;
        let parts = format!(in alloc; "{prefix}Parts{used}")?;
        let columns = columns_of(alloc, fields)?;
        let container = container_of(alloc, prefix, generics, parts.as_str(), columns.as_slice())?;
        let angles = in_angles(alloc, params.as_slice())?;
        let tuple = in_tuple(alloc, params.as_slice())?;
        Ok(Page {
            alloc,
            lines: Lines::new(alloc),
            style,
            generics,
            name: String::from_str(alloc, name)?,
            own: format!(in alloc; "{name}{given}")?,
            row_name: format!(in alloc; "{name}Reference")?,
            row: format!(in alloc; "{name}Reference{angles}")?,
            derives: derived(alloc, description.derives.as_slice())?,
            container,
            prefix: String::from_str(alloc, prefix)?,
            columns,
            parts,
            fields: names_of(alloc, fields)?,
            kinds,
            params,
            tuple,
        })
    }

    /// Returns the whole code.
    pub fn printed(self) -> Result<String, AllocError> {
        let mut page = self;
        page.add_rows()?;
        page.add_values()?;
        let Page { lines, .. } = page;
        Ok(lines.into_text())
    }

    // Adds the types, and the impls that push values and rows.
    fn add_rows(&mut self) -> Result<(), AllocError> {
        self.add_head()?;
        self.add_row()?;
        self.add_items()?;
        self.add_made_rows()?;
        self.add_pushed_values()?;
        self.add_pushed_rows()
    }

    // Adds the impls that make values from rows, and the views.
    fn add_values(&mut self) -> Result<(), AllocError> {
        self.add_names()?;
        self.add_owned()?;
        self.add_values_of_rows()?;
        self.add_views()?;
        self.add_setters()
    }

    // Adds the column, and the tuple of the fields.
    fn add_head(&mut self) -> Result<(), AllocError> {
        let (alloc, name) = (self.alloc, self.name.as_str());
        let generics = self.generics;
        let own = self.own.as_str();
        let params = generics.of_alias(alloc, &[], generics.names(alloc)?.as_slice())?;
        if generics.is_none() {
            self.add_parts()?;
            return self.add_leaf();
        }
        self.lines
            .put(format!(in alloc; "/// A column of values of `{name}`."))?;
        self.lines.add_container(name, params.as_str(), own)?;
        self.add_parts()
    }

    // Adds the column of a struct without parameters.
    fn add_leaf(&mut self) -> Result<(), AllocError> {
        self.lines.add("")?;
        let told = format!(in self.alloc; "values of `{}`", self.name)?;
        let leaf = Leaf {
            alloc: self.alloc,
            name: self.name.as_str(),
            told: told.as_str(),
            row: self.name.as_str(),
            prefix: self.prefix.as_str(),
            columns: self.container.as_str(),
        };
        leaf.add(&mut self.lines)
    }

    // Adds the tuple of the fields, and that of their columns.
    fn add_parts(&mut self) -> Result<(), AllocError> {
        let (alloc, generics) = (self.alloc, self.generics);
        self.lines.add("// The fields, in their order")?;
        let params = generics.of_alias(alloc, &[], self.kinds.as_slice())?;
        let before = format!(in alloc; "type {}Parts{params} = ", self.prefix)?;
        self.lines
            .add_tuple("", before.as_str(), self.kinds.as_slice(), ";")?;
        if self.columns.is_empty() && !generics.is_none() {
            return Ok(());
        }
        self.lines.add("\n// Their columns")?;
        if self.columns.is_empty() {
            let (name, parts) = (self.container.as_str(), self.parts.as_str());
            return self
                .lines
                .put(format!(in alloc; "type {name} = ContainerOf<{parts}>;"));
        }
        let params = generics.of_alias(alloc, &[], self.columns.as_slice())?;
        let before = format!(in alloc; "type {}PartColumns{params} = ", self.prefix)?;
        self.lines
            .add_tuple("", before.as_str(), self.columns.as_slice(), ";")
    }

    // Adds the struct of the rows.
    fn add_row(&mut self) -> Result<(), AllocError> {
        let row = self.row.as_str();
        self.lines.put(format!(in self.alloc;
            "
/// What stands for a value of `{}` in a column.
#[derive({})]",
            self.name, self.derives
        ))?;
        match self.style {
            Style::Unit => self
                .lines
                .put(format!(in self.alloc; "pub struct {row};\n")),
            Style::Numbered => {
                let before = format!(in self.alloc; "pub struct {row}(")?;
                let items = each(self.alloc, self.params.as_slice(), "pub ", "")?;
                self.lines
                    .add_list("", before.as_str(), items.as_slice(), ");\n", WIDTH)
            }
            Style::Named => {
                self.lines
                    .put(format!(in self.alloc; "pub struct {row} {{"))?;
                for (name, param) in self.fields.iter().zip(self.params.iter()) {
                    self.lines
                        .put(format!(in self.alloc; "    pub {name}: {param},"))?;
                }
                self.lines.add("}\n")
            }
        }
    }

    // Returns the tuple of the fields of `e`, in the syntax of clauses.
    fn tuple_in_clause(&self) -> Result<String, AllocError> {
        if self.style == Style::Unit {
            return String::from_str(self.alloc, "tt");
        }
        let fields = each(self.alloc, self.fields.as_slice(), "e.", "")?;
        in_clause(self.alloc, fields.as_slice())
    }

    // Adds the meaning of values and rows, and whether they are pushed without a buffer: as the tuple of their fields.
    fn add_items(&mut self) -> Result<(), AllocError> {
        let fields = self.tuple_in_clause()?;
        let parts = self.parts.as_str();
        let tuple = self.tuple.as_str();
        self.lines.add_impl(
            &Header {
                params: self.generics.declared(self.alloc, "")?.as_slice(),
                trait_name: "Item",
                of: &[],
                own: self.own.as_str(),
                after: "",
            },
            self.generics.bounds.as_slice(),
        )?;
        self.lines.put(format!(in self.alloc;
            "    ghost meaning = {{ λ e. ⟦<{parts} as Item>⟧.meaning {fields} }};

    ghost valid = {{ λ e. ⟦<{parts} as Item>⟧.valid {fields} }};

    ghost unbuffered = {{ ⟦<{parts} as Item>⟧.unbuffered }};
}}
"
        ))?;
        let params = each(self.alloc, self.params.as_slice(), "", ": Item")?;
        self.lines.add_header(&Header {
            params: params.as_slice(),
            trait_name: "Item",
            of: &[],
            own: self.row.as_str(),
            after: " {",
        })?;
        self.lines.put(format!(in self.alloc;
            "    ghost meaning = {{ λ e. ⟦<{tuple} as Item>⟧.meaning {fields} }};

    ghost valid = {{ λ e. ⟦<{tuple} as Item>⟧.valid {fields} }};

    ghost unbuffered = {{ ⟦<{tuple} as Item>⟧.unbuffered }};
}}
"
        ))
    }

    // Adds a value of the struct or of its row, with these values of the fields.
    fn add_struct(
        &mut self,
        before: &str,
        name: &str,
        values: &[String],
        after: &str,
    ) -> Result<(), AllocError> {
        let indent = "        ";
        match self.style {
            Style::Unit => self
                .lines
                .put(format!(in self.alloc; "{indent}{before}{name}{after}")),
            Style::Numbered => {
                let before = format!(in self.alloc; "{before}{name}(")?;
                let after = format!(in self.alloc; "){after}")?;
                self.lines
                    .add_arguments(indent, before.as_str(), values, after.as_str())
            }
            Style::Named => {
                let items = self.with_names(values)?;
                let before = format!(in self.alloc; "{before}{name} ")?;
                self.lines
                    .add_braces(indent, before.as_str(), items.as_slice(), after)
            }
        }
    }

    // Returns the values, each after the name of its field.
    fn with_names(&self, values: &[String]) -> Result<Vec<String>, AllocError> {
        let mut items = Vec::new(self.alloc);
        for (name, value) in self.fields.iter().zip(values.iter()) {
            keep(&mut items, format!(in self.alloc; "{name}: {value}")?)?;
        }
        Ok(items)
    }

    // Returns the parts of a tuple, by number.
    fn parts_of(&self, tuple: &str) -> Result<Vec<String>, AllocError> {
        let mut parts = Vec::new(self.alloc);
        for (i, _) in self.fields.iter().enumerate() {
            keep(&mut parts, format!(in self.alloc; "{tuple}.{i}")?)?;
        }
        Ok(parts)
    }

    // Returns the parameters of the struct, and then those of its row with these bounds.
    fn all_params(&self, bounds: &str) -> Result<Vec<String>, AllocError> {
        let mut all = self.generics.declared(self.alloc, "")?;
        for param in &self.params {
            keep(&mut all, format!(in self.alloc; "{param}{bounds}")?)?;
        }
        Ok(all)
    }

    // Adds the impl that makes a row from the rows of the parts.
    fn add_made_rows(&mut self) -> Result<(), AllocError> {
        let params = self.all_params(": Item")?;
        self.lines.add_impl(
            &Header {
                params: params.as_slice(),
                trait_name: "MakeRow",
                of: &[String::from_str(self.alloc, self.tuple.as_str())?],
                own: self.own.as_str(),
                after: "",
            },
            self.generics.bounds.as_slice(),
        )?;
        let unused = if self.style == Style::Unit { "_" } else { "" };
        self.lines.put(format!(in self.alloc;
            "    type Row = {};

    fn make_row({unused}row: {}) -> Self::Row {{",
            self.row, self.tuple
        ))?;
        let name = String::from_str(self.alloc, self.row_name.as_str())?;
        let parts = self.parts_of("row")?;
        self.add_struct("", name.as_str(), parts.as_slice(), "")?;
        self.lines.add("    }\n}\n")
    }

    // Adds a push of the fields, each after `before`.
    fn add_push(&mut self, before: &str) -> Result<(), AllocError> {
        let fields = each(self.alloc, self.fields.as_slice(), before, "")?;
        self.lines
            .add_values("        ", "parts.push(", fields.as_slice(), ")")?;
        self.lines.add("    }\n}\n")
    }

    // Adds the impl that pushes values.
    fn add_pushed_values(&mut self) -> Result<(), AllocError> {
        let bounds = self.generics.pushes(self.alloc)?;
        self.lines.add_impl(
            &Header {
                params: self.generics.declared(self.alloc, "")?.as_slice(),
                trait_name: "PushParts",
                of: &[
                    String::from_str(self.alloc, self.container.as_str())?,
                    String::from_str(self.alloc, self.own.as_str())?,
                ],
                own: self.own.as_str(),
                after: "",
            },
            bounds.as_slice(),
        )?;
        self.lines.put(format!(in self.alloc;
            "    fn push_parts(&self, parts: &mut {}) -> Result<(), GrowError> {{",
            self.container
        ))?;
        if self.generics.is_none() {
            return self.add_push("&self.");
        }
        let fields = each(self.alloc, self.fields.as_slice(), "&self.", "")?;
        self.lines.add_values("        ", "let fields = ByRefs(", fields.as_slice(), ");")?;
        self.lines
            .add("        fields.push_into(parts)\n    }\n}\n")
    }

    // Adds the impl that pushes rows.
    fn add_pushed_rows(&mut self) -> Result<(), AllocError> {
        let mut params = self.all_params(": Copy + Item")?;
        let columns = self.generics.fresh(self.alloc, "P")?;
        keep(
            &mut params,
            format!(in self.alloc; "{columns}: Push<{}>", self.tuple)?,
        )?;
        self.lines.add_impl(
            &Header {
                params: params.as_slice(),
                trait_name: "PushParts",
                of: &[
                    String::from_str(self.alloc, columns.as_str())?,
                    String::from_str(self.alloc, self.own.as_str())?,
                ],
                own: self.row.as_str(),
                after: "",
            },
            self.generics.bounds.as_slice(),
        )?;
        self.lines.put(format!(in self.alloc;
            "    fn push_parts(&self, parts: &mut {columns}) -> Result<(), GrowError> {{"
        ))?;
        self.add_push("self.")
    }

    // Adds the names of the fields.
    fn add_names(&mut self) -> Result<(), AllocError> {
        add_names(
            self.alloc,
            &mut self.lines,
            self.own.as_str(),
            self.generics,
            self.fields.as_slice(),
        )
    }

    // Adds the column of the values.
    fn add_owned(&mut self) -> Result<(), AllocError> {
        let container = if self.generics.is_none() {
            format!(in self.alloc; "{}Container", self.name)?
        } else {
            format!(in self.alloc; "OwnRows<{}, {}>", self.container, self.own)?
        };
        self.lines.add_impl(
            &Header {
                params: self.generics.declared(self.alloc, "")?.as_slice(),
                trait_name: "Columnar",
                of: &[],
                own: self.own.as_str(),
                after: "",
            },
            self.generics.bounds.as_slice(),
        )?;
        self.lines.put(format!(in self.alloc;
            "    ghost unfit = {{ ⟦<{} as Columnar>⟧.unfit }};

    type Container = {container};
}}
",
            self.parts
        ))
    }

    // Returns the bounds of the impl that makes a value from a row.
    fn from_bounds(&self, row: &str) -> Result<Vec<String>, AllocError> {
        let mut bounds = self.generics.where_bounds(self.alloc)?;
        let parts = self.parts.as_str();
        let bound = if self.generics.is_none() {
            format!(in self.alloc; "{parts}: FromRow<{row}>")?
        } else {
            format!(in self.alloc; "{row}: IntoValue<{parts}>")?
        };
        keep(&mut bounds, bound)?;
        Ok(bounds)
    }

    // Adds the head of the impl that makes a value from a row.
    fn add_from_row(&mut self, row: &str) -> Result<(), AllocError> {
        let mut params = self.generics.declared(self.alloc, "Drop")?;
        keep(&mut params, format!(in self.alloc; "{row}: Item")?)?;
        let bounds = self.from_bounds(row)?;
        let own = self.own.as_str();
        self.lines.add_impl(
            &Header {
                params: params.as_slice(),
                trait_name: "FromRow",
                of: &[format!(in self.alloc; "OwnRow<{row}, {own}>")?],
                own,
                after: "",
            },
            bounds.as_slice(),
        )
    }

    // Adds the head of the function that makes a value from a row.
    fn add_from_row_function(&mut self, row: &str) -> Result<(), AllocError> {
        let of = [
            String::from_str(self.alloc, "alloc: Global")?,
            format!(in self.alloc; "row: OwnRow<{row}, {}>", self.own)?,
        ];
        self.lines.add_list(
            "    ",
            "fn from_row(",
            of.as_slice(),
            ") -> Result<Self, OwnError> {",
            WIDTH,
        )
    }

    // Adds the line that makes the parts of a row values.
    fn add_parts_made(&mut self) -> Result<(), AllocError> {
        let made = if self.style == Style::Unit {
            "_parts"
        } else {
            "parts"
        };
        let parts = self.parts.as_str();
        if self.generics.is_none() {
            self.lines.put(format!(in self.alloc;
                "        let {made} = {parts}::from_row(alloc, row.parts)?;"
            ))
        } else {
            self.lines.put(format!(in self.alloc;
                "        let {made}: {parts} = row.parts.into_value(alloc)?;"
            ))
        }
    }

    // Adds the impl that makes a value from a row.
    fn add_values_of_rows(&mut self) -> Result<(), AllocError> {
        let row = self.generics.fresh(self.alloc, "R")?;
        self.add_from_row(row.as_str())?;
        self.add_from_row_function(row.as_str())?;
        self.add_parts_made()?;
        let name = String::from_str(self.alloc, self.name.as_str())?;
        let parts = self.parts_of("parts")?;
        self.add_struct("Ok(", name.as_str(), parts.as_slice(), ")")?;
        self.lines.add("    }\n}")
    }

    // Returns the parts of a view: the column of each field.
    fn views(&self) -> Result<Vec<View>, AllocError> {
        let mut views = Vec::new(self.alloc);
        let count = self.fields.len();
        let function = function_of(count);
        for (i, field) in self.fields.iter().enumerate() {
            let is_last = i.saturating_add(1) == count;
            let rows = if count == 1 {
                String::from_str(self.alloc, "rows_of_only")?
            } else if is_last {
                format!(in self.alloc; "rows_of_last {i}")?
            } else {
                format!(in self.alloc; "rows_of_field {i}")?
            };
            let method = method_of(self.alloc, self.style, field.as_str(), i)?;
            let value = if count == 1 {
                format!(in self.alloc; "columnar::own::{function}(self.parts)")?
            } else {
                format!(in self.alloc; "columnar::own::{function}(self.parts).{i}")?
            };
            let told = format!(in self.alloc; "the column of `{field}`")?;
            let view = View {
                method,
                told,
                rows,
                value,
            };
            match views.push(view) {
                Ok(()) => {}
                Err(error) => return Err(AllocError::from(error)),
            }
        }
        Ok(views)
    }

    // Returns the columns of the fields.
    fn field_columns(&self) -> Result<Vec<String>, AllocError> {
        if self.columns.is_empty() {
            each(self.alloc, self.kinds.as_slice(), "ContainerOf<", ">")
        } else {
            each(self.alloc, self.columns.as_slice(), "", "")
        }
    }

    // Adds the methods that write fields in place, unless the type has parameters.
    fn add_setters(&mut self) -> Result<(), AllocError> {
        if !self.generics.is_none() {
            return Ok(());
        }
        let mut fields = Vec::new(self.alloc);
        let columns = self.field_columns()?;
        for (i, (field, column)) in self.fields.iter().zip(columns.into_iter()).enumerate() {
            let method = method_of(self.alloc, self.style, field.as_str(), i)?;
            let setter = Setter {
                method: setter_name(self.alloc, method.as_str())?,
                told: format!(in self.alloc; "`{field}`")?,
                column,
            };
            match fields.push(setter) {
                Ok(()) => {}
                Err(error) => return Err(AllocError::from(error)),
            }
        }
        let setters = Setters {
            alloc: self.alloc,
            name: self.name.as_str(),
            fields: fields.as_slice(),
        };
        setters.add(&mut self.lines)
    }

    // Adds the aliases of the columns of the fields in a view and returns their names; none if the type has parameters.
    fn kinds_in_view(&mut self) -> Result<Vec<String>, AllocError> {
        if !self.generics.is_none() {
            return Ok(Vec::new(self.alloc));
        }
        let columns = self.field_columns()?;
        let prefix = self.prefix.as_str();
        self.lines.add("")?;
        add_kinds(self.alloc, &mut self.lines, prefix, columns.as_slice())
    }

    // Adds the trait that names the columns of the fields of a view, if there are fields.
    fn add_views(&mut self) -> Result<(), AllocError> {
        if self.style == Style::Unit {
            return Ok(());
        }
        let parts = self.views()?;
        let kinds = self.kinds_in_view()?;
        let name = self.name.as_str();
        let told = format!(in self.alloc;
            "The columns of the fields of `{name}` in a view, by name."
        )?;
        let mut others = self.generics.declared(self.alloc, "")?;
        let of = if kinds.is_empty() {
            format!(in self.alloc; "OwnRows<{}, {}>", self.tuple, self.own)?
        } else {
            keep(&mut others, String::from_str(self.alloc, "'x")?)?;
            format!(in self.alloc; "{name}View<'x>")?
        };
        let imports = if self.fields.len() == 1 {
            "Rattle.columnar.specs.Fields.{rows_of_only}"
        } else {
            "Rattle.columnar.specs.Fields.{rows_of_field, rows_of_last}"
        };
        let views = Views {
            own: name,
            told: told.as_str(),
            imports,
            params: self.params.as_slice(),
            kinds: kinds.as_slice(),
            others: others.as_slice(),
            bounds: self.generics.bounds.as_slice(),
            of: of.as_str(),
            parts: parts.as_slice(),
        };
        views.add(self.alloc, &mut self.lines)
    }
}

// Returns the name of field `i` in names of methods.
fn method_of(alloc: Global, style: Style, field: &str, i: usize) -> Result<String, AllocError> {
    if style == Style::Named {
        String::from_str(alloc, field)
    } else {
        format!(in alloc; "field_{i}")
    }
}

// Returns the column of each field, if an attribute names one of them; otherwise nothing.
fn columns_of(alloc: Global, fields: &[Field]) -> Result<Vec<String>, AllocError> {
    let mut columns = Vec::new(alloc);
    if fields.iter().any(|field| field.column.is_some()) {
        for field in fields {
            keep(&mut columns, field.container(alloc)?)?;
        }
    }
    Ok(columns)
}

// Returns the function that splits a view of so many fields, from one to ten.
fn function_of(count: usize) -> &'static str {
    match count {
        1 => "field_of_one",
        2 => "fields_of_two",
        3 => "fields_of_three",
        4 => "fields_of_four",
        5 => "fields_of_five",
        6 => "fields_of_six",
        7 => "fields_of_seven",
        8 => "fields_of_eight",
        9 => "fields_of_nine",
        _ => "fields_of_ten",
    }
}
