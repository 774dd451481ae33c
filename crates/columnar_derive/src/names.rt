//! The names of parts: of the fields of a struct, or of the variants of an enum.
use crate::generics::Generics;
use crate::lines::{Header, ITEMS, Lines, WIDTH, each, joined, width};
use std::alloc::{AllocError, Global};
use std::fmt::Write;

/// Adds the impl that names the parts of a type, in order, and its ghost.
pub fn add_names(
    alloc: Global,
    lines: &mut Lines,
    own: &str,
    generics: &Generics,
    names: &[String],
) -> Result<(), AllocError> {
    lines.add_impl(
        &Header {
            params: generics.declared(alloc, "")?.as_slice(),
            trait_name: "PartNames",
            of: &[],
            own,
            after: "",
        },
        generics.bounds.as_slice(),
    )?;
    let mut list = String::new(alloc);
    for name in names {
        let name = name.as_str();
        write!(list, "codes \"{name}\" ∷ ")?;
    }
    let words = if names.is_empty() {
        "[]"
    } else {
        "[], ◌∷◌, codes"
    };
    lines.put(format!(in alloc;
        "    ghost use Rattle.std.specs.Prelude.{{{words}}};
    ghost use Rattle.columnar.specs.Names.{{name_at}};

    ghost name_of = {{ name_at ({list}[]) }};

    fn part_name(index: usize) -> &'static str {{"
    ))?;
    add_list_of_names(alloc, lines, names)?;
    lines.add("    }\n}\n")
}

// Adds the call that returns one of the names.
fn add_list_of_names(alloc: Global, lines: &mut Lines, names: &[String]) -> Result<(), AllocError> {
    let names = each(alloc, names, "\"", "\"")?;
    let list = joined(alloc, names.as_slice(), ", ")?;
    let arguments = format!(in alloc; "&[{list}], index")?;
    let arguments = arguments.as_str();
    if width(arguments) <= ITEMS {
        return lines.put(format!(in alloc; "        name_in({arguments})"));
    }
    lines.add("        name_in(")?;
    let indent = "            ";
    if names.len() == 1 {
        lines.add_list(indent, "&[", names.as_slice(), "],", WIDTH)?;
    } else {
        lines.add_arguments(indent, "&[", names.as_slice(), "],")?;
    }
    lines.add("            index,\n        )")
}

// The names that the language reserves.
const RESERVED: [&str; 55] = [
    "abstract", "as", "async", "await", "become", "box", "break", "const", "continue", "crate",
    "deriving", "do", "dyn", "else", "ensures", "enum", "extern", "false", "final", "fn", "for",
    "gen", "ghost", "if", "impl", "in", "let", "loop", "macro", "match", "mod", "move", "mut",
    "override", "priv", "pub", "ref", "requires", "return", "self", "static", "struct", "super",
    "trait", "true", "try", "type", "typeof", "unsafe", "unsized", "use", "virtual", "where",
    "while", "yield",
];

// Returns whether the language reserves a name.
fn is_reserved(name: &str) -> bool {
    RESERVED.iter().any(|word| *word == name)
}

// Returns whether a word of a name begins at character `i`: an upper-case letter after a lower-case one or a digit, or
// before a lower-case one.
fn begins_word(name: &str, i: usize, c: char) -> bool {
    if i == 0 || !c.is_ascii_uppercase() {
        return false;
    }
    let before = name.chars().nth(i.saturating_sub(1)).unwrap_or('_');
    let after = name.chars().nth(i.saturating_add(1)).unwrap_or('_');
    let follows = before.is_ascii_lowercase() || before.is_ascii_digit();
    follows || (before.is_ascii_uppercase() && after.is_ascii_lowercase())
}

/// Returns the name of the method for a variant: its words in lower case, with `_` between them, and with `_` after a
/// name that the language reserves.
pub fn method_name(alloc: Global, variant: &str) -> Result<String, AllocError> {
    let mut name = String::new(alloc);
    for (i, c) in variant.chars().enumerate() {
        if begins_word(variant, i, c) {
            name.push('_')?;
        }
        name.push(c.to_ascii_lowercase())?;
    }
    if is_reserved(name.as_str()) {
        name.push('_')?;
    }
    Ok(name)
}
