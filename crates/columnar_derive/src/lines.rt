//! Text, laid out as by `rt fmt`.
use std::alloc::{AllocError, Global};
use std::fmt::Write;

/// The greatest length of a line.
pub const WIDTH: usize = 100;

/// The greatest length of the items of a tuple or call on one line.
pub const ITEMS: usize = 60;

// The greatest length of values that share lines if one line cannot hold them all.
const SHORT: usize = 10;

/// The greatest length of the fields of a struct literal on one line.
const FIELDS: usize = 18;

/// The header of an impl.
#[derive(Clone, Copy)]
pub struct Header<'x> {
    /// The parameters of the impl, with their bounds.
    pub params: &'x [String],
    /// The trait, without its arguments.
    pub trait_name: &'x str,
    /// The arguments of the trait.
    pub of: &'x [String],
    /// The type.
    pub own: &'x str,
    /// The text that follows on the same line, unless bounds follow.
    pub after: &'x str,
}

/// A match arm whose value is a call of a function.
#[derive(Clone, Copy)]
pub struct Arm<'x> {
    pub indent: &'x str,
    /// The pattern, without the fields in braces.
    pub pattern: &'x str,
    /// The fields in braces, if any.
    pub fields: &'x [String],
    pub function: &'x str,
    pub argument: &'x str,
}

/// Lines of text.
#[derive(Drop)]
pub struct Lines {
    alloc: Global,
    text: String,
}

/// Joins the texts, with `between` between two of them.
pub fn joined(alloc: Global, texts: &[String], between: &str) -> Result<String, AllocError> {
    let mut all = String::new(alloc);
    for (i, text) in texts.iter().enumerate() {
        if i > 0 {
            all.push_str(between)?;
        }
        all.push_str(text.as_str())?;
    }
    Ok(all)
}

/// Returns the name of the type parameter of item `index`: a capital letter, with a number from index 26 on.
pub fn parameter(alloc: Global, index: usize) -> Result<String, AllocError> {
    let mut text = String::new(alloc);
    if let Some(letter) = ('A'..='Z').nth(index % 26) {
        text.push(letter)?;
    }
    if index >= 26 {
        let turn = index / 26;
        write!(text, "{turn}")?;
    }
    Ok(text)
}

/// Returns the name of field `index`, below ten, in a pattern: a letter.
pub fn letter(alloc: Global, index: usize) -> Result<String, AllocError> {
    let mut text = String::new(alloc);
    if let Some(letter) = ('a'..='j').nth(index) {
        text.push(letter)?;
    }
    Ok(text)
}

/// Appends a text to the texts.
pub fn keep(texts: &mut Vec<String>, text: String) -> Result<(), AllocError> {
    match texts.push(text) {
        Ok(()) => Ok(()),
        Err(error) => Err(AllocError::from(error)),
    }
}

/// Returns the tuple of the texts, in the syntax of clauses.
pub fn in_clause(alloc: Global, texts: &[String]) -> Result<String, AllocError> {
    let list = joined(alloc, texts, ", ")?;
    if texts.len() == 1 {
        format!(in alloc; "(record {{ 0 = {list} }})")
    } else {
        format!(in alloc; "({list})")
    }
}

/// Returns the texts, each between `before` and `after`.
pub fn each(
    alloc: Global,
    texts: &[String],
    before: &str,
    after: &str,
) -> Result<Vec<String>, AllocError> {
    let mut all = Vec::new(alloc);
    for text in texts {
        keep(&mut all, format!(in alloc; "{before}{text}{after}")?)?;
    }
    Ok(all)
}

/// Returns the tuple of the texts.
pub fn in_tuple(alloc: Global, texts: &[String]) -> Result<String, AllocError> {
    let list = joined(alloc, texts, ", ")?;
    if texts.len() == 1 {
        format!(in alloc; "({list},)")
    } else {
        format!(in alloc; "({list})")
    }
}

/// Returns the texts between `<` and `>`; without texts, an empty text.
pub fn in_angles(alloc: Global, texts: &[String]) -> Result<String, AllocError> {
    let list = joined(alloc, texts, ", ")?;
    if texts.is_empty() {
        Ok(list)
    } else {
        format!(in alloc; "<{list}>")
    }
}

// Returns the nest of the items from `from` on, on one line.
fn nested(alloc: Global, items: &[String], from: usize, last: &str) -> Result<String, AllocError> {
    let mut text = String::new(alloc);
    for item in items.iter().skip(from) {
        write!(text, "Nth<{item}, ")?;
    }
    text.push_str(last)?;
    for _ in items.iter().skip(from) {
        text.push('>')?;
    }
    Ok(text)
}

// Returns the nested pairs of the items from `from` on, on one line.
fn paired(alloc: Global, items: &[String], from: usize) -> Result<String, AllocError> {
    let mut text = String::new(alloc);
    for (i, item) in items.iter().enumerate().skip(from) {
        let is_last = i.saturating_add(1) == items.len();
        write!(text, "({item},")?;
        if !is_last {
            text.push(' ')?;
        }
    }
    for _ in items.iter().skip(from) {
        text.push(')')?;
    }
    Ok(text)
}

/// Returns the number of characters of a text.
pub fn width(text: &str) -> usize {
    text.chars().count()
}

fn fits(text: &str) -> bool {
    width(text) <= WIDTH
}

impl Lines {
    pub fn new(alloc: Global) -> Lines {
        Lines {
            alloc,
            text: String::new(alloc),
        }
    }

    /// Returns all lines.
    pub fn into_text(self) -> String {
        self.text
    }

    /// Adds one or more lines.
    pub fn add(&mut self, text: &str) -> Result<(), AllocError> {
        self.text.push_str(text)?;
        self.text.push('\n')
    }

    /// Adds one or more lines, unless making them failed.
    pub fn put(&mut self, made: Result<String, AllocError>) -> Result<(), AllocError> {
        let text = made?;
        self.add(text.as_str())
    }

    // Adds a line for each item, with a comma after it.
    fn add_items(&mut self, indent: &str, items: &[String]) -> Result<(), AllocError> {
        for item in items {
            self.text.push_str(indent)?;
            self.text.push_str("    ")?;
            self.text.push_str(item.as_str())?;
            self.add(",")?;
        }
        Ok(())
    }

    /// Adds items between two texts, such as `f(` and `)`: on one line if they have at most `most` characters, else
    /// one per line.
    pub fn add_list(
        &mut self,
        indent: &str,
        before: &str,
        items: &[String],
        after: &str,
        most: usize,
    ) -> Result<(), AllocError> {
        let list = joined(self.alloc, items, ", ")?;
        let list = list.as_str();
        let line = format!(in self.alloc; "{indent}{before}{list}{after}")?;
        if width(list) <= most && fits(line.as_str()) {
            return self.add(line.as_str());
        }
        let first = format!(in self.alloc; "{indent}{before}")?;
        self.add(first.as_str().trim_end())?;
        self.add_items(indent, items)?;
        self.put(format!(in self.alloc; "{indent}{after}"))
    }

    /// Adds the import of names from a path; if one line cannot hold them, they share lines.
    pub fn add_import(&mut self, path: &str, names: &[String]) -> Result<(), AllocError> {
        let list = joined(self.alloc, names, ", ")?;
        let line = format!(in self.alloc; "use {path}::{{{list}}};")?;
        if fits(line.as_str()) {
            return self.add(line.as_str());
        }
        self.put(format!(in self.alloc; "use {path}::{{"))?;
        self.add_filled("   ", names)?;
        self.add("};")
    }

    // Adds items, each with a comma after it, which share lines. The first line begins with `begun`, whose length and one
    // is the indent of the others.
    fn add_filled(&mut self, begun: &str, items: &[String]) -> Result<(), AllocError> {
        let mut line = String::from_str(self.alloc, begun)?;
        for (i, item) in items.iter().enumerate() {
            // A space follows each comma but the last.
            let after = usize::from(i.saturating_add(1) < items.len());
            let longer = format!(in self.alloc; "{line} {item},")?;
            if width(longer.as_str()).saturating_add(after) <= WIDTH {
                line = longer;
            } else {
                self.add(line.as_str())?;
                line = format!(in self.alloc; "{begun} {item},")?;
            }
        }
        self.add(line.as_str())
    }

    /// Adds the tuple of values between two texts, like `add_list`; short values share lines.
    pub fn add_values(
        &mut self,
        indent: &str,
        before: &str,
        values: &[String],
        after: &str,
    ) -> Result<(), AllocError> {
        if values.len() == 1 {
            return self.add_tuple(indent, before, values, after);
        }
        let before = format!(in self.alloc; "{before}(")?;
        let after = format!(in self.alloc; "){after}")?;
        self.add_arguments(indent, before.as_str(), values, after.as_str())
    }

    /// Adds values between two texts, such as `f(` and `)`, like `add_list`; short values share lines.
    pub fn add_arguments(
        &mut self,
        indent: &str,
        before: &str,
        values: &[String],
        after: &str,
    ) -> Result<(), AllocError> {
        let list = joined(self.alloc, values, ", ")?;
        let line = format!(in self.alloc; "{indent}{before}{list}{after}")?;
        let fits_one = width(list.as_str()) <= ITEMS && fits(line.as_str());
        let are_short = values.iter().all(|value| width(value.as_str()) <= SHORT);
        if fits_one || !are_short {
            return self.add_list(indent, before, values, after, ITEMS);
        }
        self.put(format!(in self.alloc; "{indent}{before}"))?;
        let begun = format!(in self.alloc; "{indent}   ")?;
        self.add_filled(begun.as_str(), values)?;
        self.put(format!(in self.alloc; "{indent}{after}"))
    }

    /// Adds a tuple between two texts, like `add_list`.
    pub fn add_tuple(
        &mut self,
        indent: &str,
        before: &str,
        items: &[String],
        after: &str,
    ) -> Result<(), AllocError> {
        if items.len() == 1 {
            let tuple = in_tuple(self.alloc, items)?;
            let line = format!(in self.alloc; "{indent}{before}{tuple}{after}")?;
            if fits(line.as_str()) {
                return self.add(line.as_str());
            }
        }
        let before = format!(in self.alloc; "{before}(")?;
        let after = format!(in self.alloc; "){after}")?;
        self.add_list(indent, before.as_str(), items, after.as_str(), ITEMS)
    }

    /// Adds fields in braces: on one line if they are short.
    pub fn add_braces(
        &mut self,
        indent: &str,
        before: &str,
        fields: &[String],
        after: &str,
    ) -> Result<(), AllocError> {
        let list = joined(self.alloc, fields, ", ")?;
        let line = format!(in self.alloc; "{indent}{before}{{ {list} }}{after}")?;
        if width(list.as_str()) <= FIELDS && fits(line.as_str()) {
            return self.add(line.as_str());
        }
        let before = format!(in self.alloc; "{before}{{")?;
        let after = format!(in self.alloc; "}}{after}")?;
        self.add_list(indent, before.as_str(), fields, after.as_str(), 0)
    }

    /// Adds `before`, the nest of the items, and a semicolon. The nest is `Nth` of the first item and the nest of the
    /// others; without items it is `last`.
    pub fn add_nest(
        &mut self,
        before: &str,
        items: &[String],
        last: &str,
    ) -> Result<(), AllocError> {
        let mut begun = String::from_str(self.alloc, before)?;
        let mut indent = String::new(self.alloc);
        for (i, item) in items.iter().enumerate() {
            let nest = nested(self.alloc, items, i, last)?;
            let after = if i == 0 { ";" } else { "," };
            let line = format!(in self.alloc; "{indent}{begun}{nest}{after}")?;
            if fits(line.as_str()) {
                self.add(line.as_str())?;
                return self.end_nest(i);
            }
            self.put(format!(in self.alloc;
                "{indent}{begun}Nth<
    {indent}{item},"
            ))?;
            begun = String::new(self.alloc);
            indent.push_str("    ")?;
        }
        let after = if items.is_empty() { ";" } else { "," };
        self.put(format!(in self.alloc; "{indent}{begun}{last}{after}"))?;
        self.end_nest(items.len())
    }

    /// Adds `before`, nested pairs of the items, and a semicolon: the first item and the pairs of the others, down to a
    /// tuple of the last.
    pub fn add_pairs(&mut self, before: &str, items: &[String]) -> Result<(), AllocError> {
        let mut begun = String::from_str(self.alloc, before)?;
        let mut indent = String::new(self.alloc);
        let mut depth = 0usize;
        for (i, item) in items.iter().enumerate() {
            let pairs = paired(self.alloc, items, i)?;
            let after = if i == 0 { ";" } else { "," };
            let line = format!(in self.alloc; "{indent}{begun}{pairs}{after}")?;
            if fits(line.as_str()) {
                self.add(line.as_str())?;
                break;
            }
            self.put(format!(in self.alloc;
                "{indent}{begun}(
    {indent}{item},"
            ))?;
            begun = String::new(self.alloc);
            indent.push_str("    ")?;
            depth = depth.saturating_add(1);
        }
        for left in (0..depth).rev() {
            for _ in 0..left {
                self.text.push_str("    ")?;
            }
            self.add(if left == 0 { ");" } else { ")," })?;
        }
        Ok(())
    }

    // Adds the ends of `depth` nests, the innermost first.
    fn end_nest(&mut self, depth: usize) -> Result<(), AllocError> {
        for left in (0..depth).rev() {
            for _ in 0..left {
                self.text.push_str("    ")?;
            }
            self.add(if left == 0 { ">;" } else { ">," })?;
        }
        Ok(())
    }

    /// Adds a match arm: a pattern, and the call that is its value. If one line cannot hold both, a `let` names the
    /// argument of the call.
    pub fn add_arm(&mut self, arm: &Arm<'_>) -> Result<(), AllocError> {
        let Arm {
            indent,
            pattern,
            function,
            argument,
            ..
        } = arm;
        let list = joined(self.alloc, arm.fields, ", ")?;
        let line = if arm.fields.is_empty() {
            format!(in self.alloc; "{indent}{pattern} => {function}({argument}),")?
        } else {
            format!(in self.alloc; "{indent}{pattern} {{ {list} }} => {function}({argument}),")?
        };
        if width(list.as_str()) <= FIELDS && fits(line.as_str()) {
            return self.add(line.as_str());
        }
        if arm.fields.is_empty() {
            self.put(format!(in self.alloc; "{indent}{pattern} => {{"))?;
        } else {
            let before = format!(in self.alloc; "{pattern} ")?;
            self.add_braces(indent, before.as_str(), arm.fields, " => {")?;
        }
        self.put(format!(in self.alloc;
            "{indent}    let value = {argument};
{indent}    {function}(value)
{indent}}}"
        ))
    }

    /// Adds a match arm whose value is a path.
    pub fn add_path_arm(
        &mut self,
        indent: &str,
        pattern: &str,
        value: &str,
    ) -> Result<(), AllocError> {
        let line = format!(in self.alloc; "{indent}{pattern} => {value},")?;
        if fits(line.as_str()) {
            return self.add(line.as_str());
        }
        self.put(format!(in self.alloc;
            "{indent}{pattern} =>
{indent}    {value},"
        ))
    }

    /// Adds the alias of the column of a type of this name, which has these parameters.
    pub fn add_container(&mut self, name: &str, params: &str, own: &str) -> Result<(), AllocError> {
        let before = format!(in self.alloc; "pub type {name}Container{params} = ContainerOf<")?;
        let of = [String::from_str(self.alloc, own)?];
        self.add_list("", before.as_str(), of.as_slice(), ">;\n", WIDTH)
    }

    /// Adds an alias: on one line, or with the type on a line of its own.
    pub fn add_alias(&mut self, alias: &str, kind: &str) -> Result<(), AllocError> {
        let line = format!(in self.alloc; "{alias} {kind}")?;
        if fits(line.as_str().trim_end()) {
            return self.add(line.as_str());
        }
        self.put(format!(in self.alloc; "{alias}\n    {kind}"))
    }

    /// Adds the header of an impl.
    pub fn add_header(&mut self, header: &Header<'_>) -> Result<(), AllocError> {
        let trait_name = header.trait_name;
        let params = in_angles(self.alloc, header.params)?;
        let of = in_angles(self.alloc, header.of)?;
        let begun = format!(in self.alloc; "impl{params} {trait_name}{of}")?;
        if fits(begun.as_str()) {
            return self.add_target(begun.as_str(), header);
        }
        let begun = format!(in self.alloc; "impl{params} {trait_name}<")?;
        if fits(begun.as_str()) {
            self.add(begun.as_str())?;
            self.add_items("", header.of)?;
            return self.put(format!(in self.alloc; "> for {}{}", header.own, header.after));
        }
        self.add("impl<")?;
        self.add_items("", header.params)?;
        let begun = format!(in self.alloc; "> {trait_name}{of}")?;
        self.add_target(begun.as_str(), header)
    }

    /// Adds the header of an impl with these bounds, and its opening brace.
    pub fn add_impl(&mut self, header: &Header<'_>, bounds: &[String]) -> Result<(), AllocError> {
        let after = if bounds.is_empty() { " {" } else { "" };
        let header = Header { after, ..*header };
        self.add_header(&header)?;
        if bounds.is_empty() {
            return Ok(());
        }
        self.add("where")?;
        self.add_items("", bounds)?;
        self.add("{")
    }

    // Adds the beginning of a header, and the type: on the same line if it holds both.
    fn add_target(&mut self, begun: &str, header: &Header<'_>) -> Result<(), AllocError> {
        let Header { own, after, .. } = header;
        let line = format!(in self.alloc; "{begun} for {own}{after}")?;
        if fits(line.as_str()) {
            return self.add(line.as_str());
        }
        self.add(begun)?;
        self.put(format!(in self.alloc; "    for {own}{after}"))
    }
}
