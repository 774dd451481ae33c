//! The parameters of a type.
use crate::lines::{in_angles, keep, parameter};
use std::alloc::{AllocError, Global};

/// A parameter of a type.
#[derive(Debug, Drop)]
pub struct Parameter {
    pub name: String,
    /// The bounds of a type parameter, as written.
    pub bounds: Vec<String>,
    /// The type of a const parameter.
    pub kind: Option<String>,
}

/// The parameters of a type, and the bounds of its where clause on types that are no parameters.
#[derive(Debug, Drop)]
pub struct Generics {
    pub params: Vec<Parameter>,
    pub bounds: Vec<String>,
}

// Returns whether a name is that of the trait `Columnar`.
fn is_columnar(bound: &str) -> bool {
    bound == "Columnar" || bound.ends_with("::Columnar")
}

// Returns whether a type mentions a parameter.
fn mentions(text: &str, name: &str) -> bool {
    text.split(|c: char| !c.is_alphanumeric() && c != '_')
        .any(|word| word == name)
}

impl Parameter {
    // Returns the parameter as an impl declares it: `T: Columnar + B`, with one more bound unless it is empty.
    fn declared(&self, alloc: Global, more: &str) -> Result<String, AllocError> {
        let name = self.name.as_str();
        if let Some(kind) = &self.kind {
            return format!(in alloc; "const {name}: {kind}");
        }
        let mut text = format!(in alloc; "{name}: Columnar")?;
        for bound in &self.bounds {
            let bound = bound.as_str();
            if !is_columnar(bound) && bound != more {
                text.push_str(" + ")?;
                text.push_str(bound)?;
            }
        }
        if !more.is_empty() {
            text.push_str(" + ")?;
            text.push_str(more)?;
        }
        Ok(text)
    }

    // Returns the parameter as an alias declares it.
    fn in_alias(&self, alloc: Global) -> Result<String, AllocError> {
        match &self.kind {
            Some(kind) => format!(in alloc; "const {}: {kind}", self.name),
            None => String::from_str(alloc, self.name.as_str()),
        }
    }
}

impl Generics {
    /// Returns no parameters.
    pub fn none(alloc: Global) -> Generics {
        Generics {
            params: Vec::new(alloc),
            bounds: Vec::new(alloc),
        }
    }

    /// Returns whether there are no parameters.
    pub fn is_none(&self) -> bool {
        self.params.is_empty()
    }

    /// Returns the parameters as an impl declares them. Each type has the bounds `Columnar`, its own, and one more unless
    /// it is empty.
    pub fn declared(&self, alloc: Global, more: &str) -> Result<Vec<String>, AllocError> {
        let mut all = Vec::new(alloc);
        for param in &self.params {
            keep(&mut all, param.declared(alloc, more)?)?;
        }
        Ok(all)
    }

    /// Returns the names of the parameters.
    pub fn names(&self, alloc: Global) -> Result<Vec<String>, AllocError> {
        let mut all = Vec::new(alloc);
        for param in &self.params {
            keep(&mut all, String::from_str(alloc, param.name.as_str())?)?;
        }
        Ok(all)
    }

    /// Returns the bounds of the where clause.
    pub fn where_bounds(&self, alloc: Global) -> Result<Vec<String>, AllocError> {
        let mut all = Vec::new(alloc);
        for bound in &self.bounds {
            keep(&mut all, String::from_str(alloc, bound.as_str())?)?;
        }
        Ok(all)
    }

    /// Returns the bounds under which the columns of the type parameters take their values by reference, after those of the
    /// where clause.
    pub fn pushes(&self, alloc: Global) -> Result<Vec<String>, AllocError> {
        let mut all = self.where_bounds(alloc)?;
        for param in &self.params {
            if param.kind.is_none() {
                let name = param.name.as_str();
                keep(
                    &mut all,
                    format!(in alloc; "ContainerOf<{name}>: Truncate + PushRef<{name}>")?,
                )?;
            }
        }
        Ok(all)
    }

    // Returns whether one of the types mentions a parameter.
    fn is_used(param: &Parameter, kinds: &[String]) -> bool {
        kinds
            .iter()
            .any(|kind| mentions(kind.as_str(), param.name.as_str()))
    }

    /// Returns the parameters of an alias for these types, between `<` and `>`, after `first`.
    pub fn of_alias(
        &self,
        alloc: Global,
        first: &[String],
        kinds: &[String],
    ) -> Result<String, AllocError> {
        let mut all = Vec::new(alloc);
        for text in first {
            keep(&mut all, String::from_str(alloc, text.as_str())?)?;
        }
        for param in &self.params {
            if Generics::is_used(param, kinds) {
                keep(&mut all, param.in_alias(alloc)?)?;
            }
        }
        in_angles(alloc, all.as_slice())
    }

    /// Returns the arguments of an alias for these types, between `<` and `>`, after `first`.
    pub fn to_alias(
        &self,
        alloc: Global,
        first: &[String],
        kinds: &[String],
    ) -> Result<String, AllocError> {
        let mut all = Vec::new(alloc);
        for text in first {
            keep(&mut all, String::from_str(alloc, text.as_str())?)?;
        }
        for param in &self.params {
            if Generics::is_used(param, kinds) {
                keep(&mut all, String::from_str(alloc, param.name.as_str())?)?;
            }
        }
        in_angles(alloc, all.as_slice())
    }

    /// Adds a bound of a where clause: to the parameter that it is on, or to the others.
    pub fn bind(&mut self, alloc: Global, kind: &str, bound: String) -> Result<(), AllocError> {
        for param in &mut self.params {
            if param.kind.is_none() && param.name.as_str() == kind {
                return keep(&mut param.bounds, bound);
            }
        }
        keep(&mut self.bounds, format!(in alloc; "{kind}: {bound}")?)
    }

    /// Returns whether a parameter has this name.
    pub fn has(&self, name: &str) -> bool {
        self.params.iter().any(|param| param.name.as_str() == name)
    }

    /// Returns a name for a new type parameter: this one, with a number after it if a parameter has it already.
    pub fn fresh(&self, alloc: Global, name: &str) -> Result<String, AllocError> {
        if !self.has(name) {
            return String::from_str(alloc, name);
        }
        for i in 1..=self.params.len() {
            let other = format!(in alloc; "{name}{i}")?;
            if !self.has(other.as_str()) {
                return Ok(other);
            }
        }
        format!(in alloc; "{name}0")
    }

    /// Returns names for `count` new type parameters, letters in their order, none of which is `taken`. `P` and `R` stay
    /// free.
    pub fn letters(
        &self,
        alloc: Global,
        count: usize,
        taken: &[String],
    ) -> Result<Vec<String>, AllocError> {
        let mut all = Vec::new(alloc);
        let used = self.params.len().saturating_add(taken.len());
        let most = count.saturating_add(used).saturating_add(2);
        for i in 0..most {
            let name = parameter(alloc, i)?;
            let text = name.as_str();
            let is_taken = taken.iter().any(|other| other.as_str() == text);
            let is_free = !is_taken && !self.has(text) && text != "P" && text != "R";
            if is_free && all.len() < count {
                keep(&mut all, name)?;
            }
        }
        Ok(all)
    }
}
