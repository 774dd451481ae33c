//! The code that pushes values of an enum, and its rows.
use super::EnumPage;
use crate::lines::{Header, WIDTH, keep};
use std::alloc::AllocError;

impl EnumPage<'_> {
    // Adds the impls that push values and rows.
    pub(super) fn add_pushes(&mut self) -> Result<(), AllocError> {
        self.add_pushed_values()?;
        self.add_pushed_rows()
    }

    // Adds the type of a lent value, if a variant has a value.
    fn add_lent_type(&mut self) -> Result<(), AllocError> {
        let mut lent = Vec::new(self.alloc);
        for case in &self.cases {
            if case.has_value() {
                keep(&mut lent, String::from_str(self.alloc, case.lent.as_str())?)?;
            }
        }
        if lent.is_empty() {
            return Ok(());
        }
        self.add_kinds("// What they are made of, lent", "LentOf", "&'x ")?;
        self.lines.add("// A value, lent")?;
        let before = format!(in self.alloc; "type {}Lent<'x> = {}<", self.prefix, self.row_name)?;
        self.lines
            .add_list("", before.as_str(), lent.as_slice(), ">;", WIDTH)?;
        self.lines.add("")
    }

    // Returns what each variant lends.
    fn lent_items(&self) -> Result<Vec<String>, AllocError> {
        let mut items = Vec::new(self.alloc);
        for case in &self.cases {
            keep(&mut items, case.refs(self.alloc)?)?;
        }
        Ok(items)
    }

    // Adds the type of a value as the row that is pushed.
    fn add_lent_rows(&mut self) -> Result<(), AllocError> {
        let mut items = self.lent_items()?;
        let lifetime = &[String::from_str(self.alloc, "'x")?];
        let params = self
            .generics
            .of_alias(self.alloc, lifetime, items.as_slice())?;
        self.lines.add("// A value as the row that is pushed")?;
        let before = format!(in self.alloc; "type {}LentRows{params} = ", self.prefix)?;
        let Some(last) = items.pop() else {
            return Ok(());
        };
        let last = format!(in self.alloc; "Last<{last}>")?;
        self.lines
            .add_nest(before.as_str(), items.as_slice(), last.as_str())?;
        self.lines.add("")
    }

    // Adds the head of the impl that pushes a value of a generic enum.
    fn add_head_of_refs(&mut self) -> Result<(), AllocError> {
        let bounds = self.generics.pushes(self.alloc)?;
        self.lines.add_impl(
            &Header {
                params: self.generics.declared(self.alloc, "")?.as_slice(),
                trait_name: "PushParts",
                of: &[
                    String::from_str(self.alloc, self.parts.as_str())?,
                    String::from_str(self.alloc, self.own.as_str())?,
                ],
                own: self.own.as_str(),
                after: "",
            },
            bounds.as_slice(),
        )
    }

    // Returns the function that pushes a value of a generic enum.
    fn push_of_refs(&self) -> Result<String, AllocError> {
        let items = self.lent_items()?;
        let elided = &[String::from_str(self.alloc, "'_")?];
        let args = self
            .generics
            .to_alias(self.alloc, elided, items.as_slice())?;
        format!(in self.alloc; "push_into_variants::<{}LentRows{args}, _>", self.prefix)
    }

    // Adds the impl that pushes a value of a generic enum, by the references to its fields.
    fn add_pushed_refs(&mut self) -> Result<(), AllocError> {
        self.add_kinds("// What they are made of, lent", "LentOf", "&'x ")?;
        self.add_lent_rows()?;
        self.add_head_of_refs()?;
        self.lines.put(format!(in self.alloc;
            "    fn push_parts(&self, parts: &mut {}) -> Result<(), GrowError> {{
        match self {{",
            self.parts
        ))?;
        let push = self.push_of_refs()?;
        let own = self.name.as_str();
        let count = self.cases.len();
        for (number, case) in self.cases.iter().enumerate() {
            let is_last = number.saturating_add(1) == count;
            case.add_push_of_refs(
                self.alloc,
                &mut self.lines,
                own,
                number,
                is_last,
                push.as_str(),
            )?;
        }
        self.lines.add("        }\n    }\n}\n")
    }

    // Adds the impls that push a value, as the row of its lent fields.
    fn add_pushed_values(&mut self) -> Result<(), AllocError> {
        if !self.generics.is_none() {
            return self.add_pushed_refs();
        }
        self.add_lent_type()?;
        let own = self.own.as_str();
        let row_name = self.row_name.as_str();
        let has_value = self.cases.iter().any(|case| case.has_value());
        let lent = format!(in self.alloc; "{}Lent<'x>", self.prefix)?;
        let lent = if has_value { lent.as_str() } else { row_name };
        let parts = self.parts.as_str();
        self.lines.put(format!(in self.alloc;
            "impl<'x> LendRow<'x> for {own} {{
    type Lent = {lent};

    fn lend_row(&'x self) -> Self::Lent {{
        match self {{"
        ))?;
        for case in &self.cases {
            case.add_lent(self.alloc, &mut self.lines, own, row_name)?;
        }
        self.lines.put(format!(in self.alloc;
            "        }}
    }}
}}

impl PushParts<{parts}, {own}> for {own} {{
    fn push_parts(&self, parts: &mut {parts}) -> Result<(), GrowError> {{
        self.push_lent::<{parts}, {own}>(parts)
    }}
}}
"
        ))
    }

    // Adds the impl that pushes rows.
    fn add_pushed_rows(&mut self) -> Result<(), AllocError> {
        let mut params = self.all_params("", ": Copy + Item")?;
        let columns = self.generics.fresh(self.alloc, "P")?;
        let pushes = format!(in self.alloc; "{columns}: Push<{}>", self.rows)?;
        keep(&mut params, pushes)?;
        self.lines.add_impl(
            &Header {
                params: params.as_slice(),
                trait_name: "PushParts",
                of: &[
                    String::from_str(self.alloc, columns.as_str())?,
                    String::from_str(self.alloc, self.own.as_str())?,
                ],
                own: self.row.as_str(),
                after: "",
            },
            self.generics.bounds.as_slice(),
        )?;
        self.lines.put(format!(in self.alloc;
            "    fn push_parts(&self, parts: &mut {columns}) -> Result<(), GrowError> {{
        match *self {{"
        ))?;
        let row_name = self.row_name.as_str();
        let count = self.cases.len();
        for (number, case) in self.cases.iter().enumerate() {
            let is_last = number.saturating_add(1) == count;
            case.add_push(self.alloc, &mut self.lines, row_name, number, is_last)?;
        }
        self.lines.add("        }\n    }\n}\n")
    }
}
