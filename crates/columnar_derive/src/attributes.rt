//! What attributes say of a type or a field.
use std::alloc::{AllocError, Global};

/// What attributes say.
#[derive(Debug, Drop)]
pub struct Attributes {
    /// What the rows derive, as named.
    pub named: Vec<String>,
    /// The column of a field.
    pub column: Option<String>,
}

impl Attributes {
    /// Returns what no attribute says.
    pub fn none(alloc: Global) -> Attributes {
        Attributes {
            named: Vec::new(alloc),
            column: None,
        }
    }

    /// Returns whether a derive is named.
    pub fn has_derive(&self, name: &str) -> bool {
        self.named.iter().any(|other| other.as_str() == name)
    }
}

/// Returns whether rows can derive a trait of this name.
pub fn may_derive(name: &str) -> bool {
    is_always_derived(name)
        || matches!(
            name,
            "PartialEq" | "Eq" | "PartialOrd" | "Ord" | "Hash" | "Default"
        )
}

// Returns whether rows derive the trait of this name without being asked.
fn is_always_derived(name: &str) -> bool {
    matches!(name, "Clone" | "Copy" | "Debug")
}

/// Returns the list of what rows derive, if these are named.
pub fn derived(alloc: Global, named: &[String]) -> Result<String, AllocError> {
    let mut list = String::from_str(alloc, "Clone, Copy, Debug")?;
    for name in named {
        if !is_always_derived(name.as_str()) {
            list.push_str(", ")?;
            list.push_str(name.as_str())?;
        }
    }
    Ok(list)
}

/// Returns a derive that is named, and another that it needs and that is not named, if there are such.
pub fn needs(all: &Attributes) -> Option<(&'static str, &'static str)> {
    let pairs = [
        ("Eq", "PartialEq"),
        ("PartialOrd", "PartialEq"),
        ("Ord", "Eq"),
        ("Ord", "PartialOrd"),
        ("Hash", "Eq"),
    ];
    for (one, other) in pairs {
        if all.has_derive(one) && !all.has_derive(other) {
            return Some((one, other));
        }
    }
    None
}
