//! The head of a written file.
use crate::lines::{Lines, keep};
use std::alloc::{AllocError, Global};

/// What kinds of types a file has. A struct without fields and parameters is only a leaf.
#[derive(Clone, Copy, Debug, Default)]
pub struct Kinds {
    pub has_generic_struct: bool,
    pub has_enum: bool,
    pub has_generic_enum: bool,
    /// Whether a type has no parameters.
    pub has_leaf: bool,
}

// Returns the names in a sentence: `A`, `A` and `B`, or `A`, `B` and `C`.
fn listed(alloc: Global, names: &[String]) -> Result<String, AllocError> {
    let mut text = String::new(alloc);
    for (i, name) in names.iter().enumerate() {
        if i > 0 {
            let is_last = i.saturating_add(1) == names.len();
            text.push_str(if is_last { " and " } else { ", " })?;
        }
        text.push('`')?;
        text.push_str(name.as_str())?;
        text.push('`')?;
    }
    Ok(text)
}

// Adds the import of these names, which are sorted.
fn add_import(alloc: Global, lines: &mut Lines, path: &str, words: &str) -> Result<(), AllocError> {
    let mut names = Vec::new(alloc);
    for word in words.split(' ') {
        if !word.is_empty() {
            keep(&mut names, String::from_str(alloc, word)?)?;
        }
    }
    lines.add_import(path, names.as_slice())
}

// Returns what the code of such types imports from `columnar`.
fn traits_of(alloc: Global, of: Kinds) -> Result<String, AllocError> {
    let is_generic = of.has_generic_struct || of.has_generic_enum;
    let value = if is_generic { "IntoValue" } else { "" };
    let lend = if of.has_enum { "LendRow" } else { "" };
    let into = if of.has_generic_struct {
        "PushInto"
    } else {
        ""
    };
    if of.has_leaf {
        format!(in alloc;
            "AsBytes Borrow Check Clear Column Columnar ContainerBytes ContainerOf ExtendFrom FromBytes FromRow Index IndexMut {value} Item Len {lend} MakeRow OwnRow OwnRows Push {into} PushParts PushRef Reborrow Reserve RowMut SameAs SameParts SetItem SetRow SliceNames Storage Stored Truncate"
        )
    } else {
        let column = if is_generic { "Column" } else { "" };
        let refs = if is_generic { "PushRef Truncate" } else { "" };
        format!(in alloc;
            "{column} Columnar ContainerOf FromRow {value} Item {lend} MakeRow OwnRow OwnRows Push {into} PushParts {refs}"
        )
    }
}

/// Adds the head of a file of types of these names and kinds: its title, and what the code of the types imports.
pub fn add_head(
    alloc: Global,
    lines: &mut Lines,
    names: &[String],
    of: Kinds,
) -> Result<(), AllocError> {
    let list = listed(alloc, names)?;
    lines.put(format!(in alloc;
        "//! Rows of {list}, as `columnar_derive` writes them.
use super::*;
{}use columnar::fault::{{GrowError, OwnError{}}};
use columnar::names::{{PartNames, name_in}};",
        if of.has_leaf {
            "use columnar::bytes::indexed::DecodedStore;\nuse columnar::bytes::{ByteSlice, Earlier, Tally};\n"
        } else {
            ""
        },
        if of.has_leaf { ", StoreFault" } else { "" },
    ))?;
    let is_generic = of.has_generic_struct || of.has_generic_enum;
    if is_generic {
        lines.add("use columnar::own::ByRefs;")?;
    }
    if of.has_enum || of.has_generic_enum {
        let push = if of.has_generic_enum {
            "push_into_variants"
        } else {
            ""
        };
        let words = format!(in alloc; "Last Nth Variants {push} values_at")?;
        add_import(alloc, lines, "columnar::sums::variants", words.as_str())?;
    }
    let words = traits_of(alloc, of)?;
    add_import(alloc, lines, "columnar", words.as_str())?;
    lines.add(if of.has_leaf {
        "use std::alloc::{AllocError, Global};"
    } else {
        "use std::alloc::Global;"
    })
}
