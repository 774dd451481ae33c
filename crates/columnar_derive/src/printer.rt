//! The code that makes structs and enums the rows of columns.
use crate::enums::EnumPage;
use crate::head::{Kinds, add_head};
use crate::item::{Body, Description, Value};
use crate::lines::{Lines, keep};
use crate::structs::Page;
use std::alloc::{AllocError, Global};

/// Returns the code for structs and enums, in order. `place` is the path under which clauses name the items of their
/// file; if it is `None` and one of the types is an enum, returns `None`.
///
/// If there are several types, the name of each begins the names of its aliases.
pub fn printed(
    alloc: Global,
    types: &[Description],
    place: Option<&str>,
) -> Result<Option<String>, AllocError> {
    let mut lines = Lines::new(alloc);
    head(alloc, &mut lines, types)?;
    for one in types {
        let prefix = if types.len() > 1 {
            one.name.as_str()
        } else {
            ""
        };
        let text = match &one.body {
            Body::Struct(value) => Page::new(alloc, prefix, one, value)?.printed()?,
            Body::Enum(variants) => {
                let Some(place) = place else {
                    return Ok(None);
                };
                EnumPage::new(alloc, prefix, one, variants.as_slice(), place)?.printed()?
            }
        };
        lines.add("")?;
        lines.add(text.as_str().trim_end())?;
    }
    Ok(Some(lines.into_text()))
}

// Adds the head of the file of these types.
fn head(alloc: Global, lines: &mut Lines, types: &[Description]) -> Result<(), AllocError> {
    let mut names = Vec::new(alloc);
    let mut of = Kinds::default();
    for one in types {
        keep(&mut names, String::from_str(alloc, one.name.as_str())?)?;
        let is_generic = !one.generics.is_none();
        if !is_generic {
            of.has_leaf = true;
        }
        match &one.body {
            Body::Enum(_) if is_generic => of.has_generic_enum = true,
            Body::Enum(_) => of.has_enum = true,
            Body::Struct(Value::Nothing) => {}
            Body::Struct(_) if is_generic => of.has_generic_struct = true,
            Body::Struct(_) => {}
        }
    }
    add_head(alloc, lines, names.as_slice(), of)
}
