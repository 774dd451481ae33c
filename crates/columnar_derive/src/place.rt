//! The place of a file in its crate.
use std::alloc::{AllocError, Global};

/// Returns the path under which clauses name the items of a file: the crate, which is the folder before `src`, and the
/// modules after `src`. Returns `None` if the path has no such folder.
pub fn declared_in(alloc: Global, path: &str) -> Result<Option<String>, AllocError> {
    let mut before = String::new(alloc);
    let mut place: Option<String> = None;
    for part in path.split('/') {
        match &mut place {
            Some(text) => {
                let module = part.strip_suffix(".rt").unwrap_or(part);
                if !is_root(module) {
                    text.push('.')?;
                    text.push_str(module)?;
                }
            }
            None => {
                let name = before.as_str();
                if part == "src" && !name.is_empty() && name != "." && name != ".." {
                    place = Some(format!(in alloc; "Rattle.{before}.specs.declared")?);
                }
            }
        }
        before = String::from_str(alloc, part)?;
    }
    Ok(place)
}

/// Returns the same path for the items of a module, such as `examples::shape`. `examples::main` and `examples::lib` are
/// the root of the crate.
pub fn declared_by(alloc: Global, module: &str) -> Result<String, AllocError> {
    let mut place = String::from_str(alloc, "Rattle")?;
    for (i, part) in module.split("::").enumerate() {
        if i > 0 && is_root(part) {
            continue;
        }
        place.push('.')?;
        place.push_str(part)?;
        if i == 0 {
            place.push_str(".specs.declared")?;
        }
    }
    Ok(place)
}

// Returns whether this is the name of a crate's root file.
fn is_root(module: &str) -> bool {
    module == "lib" || module == "main"
}
