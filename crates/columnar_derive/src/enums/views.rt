//! The code for the views of the values of an enum.
use super::EnumPage;
use crate::lines::{WIDTH, joined, keep};
use crate::names::method_name;
use crate::views::{View, Views, add_kinds};
use std::alloc::{AllocError, Global};

// Returns the place after that of the variant with this name, or the first.
fn place_after(alloc: Global, prefix: &str, before: Option<&str>) -> Result<String, AllocError> {
    match before {
        None => String::from_str(alloc, "columnar::sums::variants::Zero;\n"),
        Some(name) => format!(in alloc; "columnar::sums::variants::Next<{prefix}At{name}>;\n"),
    }
}

impl EnumPage<'_> {
    // Adds the places of the variants, and the columns of their values in a view.
    pub(super) fn add_places(&mut self) -> Result<(), AllocError> {
        self.lines.add("\n// The places of the variants")?;
        let mut before: Option<&str> = None;
        for case in &self.cases {
            let name = case.name.as_str();
            let place = place_after(self.alloc, self.prefix.as_str(), before)?;
            let alias = format!(in self.alloc; "type {}At{name} =", self.prefix)?;
            self.lines.add_alias(alias.as_str(), place.as_str())?;
            before = Some(name);
        }
        self.add_values_viewed()
    }

    // Adds the columns of the values in a view, and the view.
    fn add_values_viewed(&mut self) -> Result<(), AllocError> {
        if self.generics.is_none() {
            return Ok(());
        }
        let params = self.view_params()?;
        let list = joined(self.alloc, params.as_slice(), ", ")?;
        let before = format!(in self.alloc; "type {}ViewsOfValues<{list}> = ", self.prefix)?;
        self.lines.add("// A view: that of the values of each variant, and those of the variants")?;
        self.lines.add_pairs(before.as_str(), params.as_slice())?;
        self.lines.add("")?;
        self.add_view(list.as_str())
    }

    // Adds the view of all values. `list` names the parameters.
    fn add_view(&mut self, list: &str) -> Result<(), AllocError> {
        let prefix = self.prefix.as_str();
        let before = format!(in self.alloc; "type {prefix}ViewOfAll<'x, {list}> = Variants<")?;
        let parts = [
            format!(in self.alloc; "{prefix}ViewsOfValues<{list}>")?,
            String::from_str(self.alloc, "&'x [u8]")?,
            String::from_str(self.alloc, "columnar::common::View<'x, u64>")?,
        ];
        self.lines
            .add_list("", before.as_str(), parts.as_slice(), ">;", WIDTH)
    }

    // Returns a type parameter for each variant.
    fn view_params(&self) -> Result<Vec<String>, AllocError> {
        let taken = self.names()?;
        self.generics
            .letters(self.alloc, self.cases.len(), taken.as_slice())
    }

    // Returns the parts of a view: the values of each variant.
    fn views(&self) -> Result<Vec<View>, AllocError> {
        let mut views = Vec::new(self.alloc);
        for (i, case) in self.cases.iter().enumerate() {
            let name = case.name.as_str();
            let parts = if case.inner.is_some() { ".parts" } else { "" };
            let view = View {
                method: method_name(self.alloc, name)?,
                told: format!(in self.alloc; "the values of `{name}`")?,
                rows: format!(in self.alloc; "of_case {i}")?,
                value: format!(in self.alloc;
                    "values_at::<{}At{name}, _, _, _>(self.parts){parts}",
                    self.prefix
                )?,
            };
            match views.push(view) {
                Ok(()) => {}
                Err(error) => return Err(AllocError::from(error)),
            }
        }
        Ok(views)
    }

    // Returns the parameters of the enum, after the lifetime of a view.
    fn params_of_view(&self) -> Result<Vec<String>, AllocError> {
        let mut params = Vec::new(self.alloc);
        keep(&mut params, String::from_str(self.alloc, "'x")?)?;
        for param in self.generics.declared(self.alloc, "")? {
            keep(&mut params, param)?;
        }
        Ok(params)
    }

    // Adds the aliases of the columns of the variants in a view and returns their names; none if the type has parameters.
    fn kinds_in_view(&mut self) -> Result<Vec<String>, AllocError> {
        if !self.generics.is_none() {
            return Ok(Vec::new(self.alloc));
        }
        let mut columns = Vec::new(self.alloc);
        for case in &self.cases {
            let column = match &case.inner {
                Some(inner) => inner.as_str(),
                None => case.column.as_str(),
            };
            keep(&mut columns, String::from_str(self.alloc, column)?)?;
        }
        let prefix = self.prefix.as_str();
        add_kinds(self.alloc, &mut self.lines, prefix, columns.as_slice())
    }

    // Adds the trait that names the values of the variants of a view.
    pub(super) fn add_views(&mut self) -> Result<(), AllocError> {
        let parts = self.views()?;
        let params = self.view_params()?;
        let others = self.params_of_view()?;
        let name = self.name.as_str();
        let told = format!(in self.alloc;
            "The values of each variant of `{name}` in a view, by name."
        )?;
        let kinds = self.kinds_in_view()?;
        let list = joined(self.alloc, params.as_slice(), ", ")?;
        let of = if kinds.is_empty() {
            format!(in self.alloc;
                "OwnRows<{}ViewOfAll<'x, {list}>, {}>",
                self.prefix, self.own
            )?
        } else {
            format!(in self.alloc; "{}View<'x>", self.name)?
        };
        let name = self.name.as_str();
        let views = Views {
            own: name,
            told: told.as_str(),
            imports: "Rattle.columnar.specs.Variants.{of_case}",
            params: params.as_slice(),
            kinds: kinds.as_slice(),
            others: others.as_slice(),
            bounds: self.generics.bounds.as_slice(),
            of: of.as_str(),
            parts: parts.as_slice(),
        };
        views.add(self.alloc, &mut self.lines)
    }
}
