//! The description of a struct or an enum, and why one is refused.
use crate::generics::Generics;
use std::alloc::{AllocError, Global};
use std::fmt;

/// The parts of a struct or an enum that its rows need.
#[derive(Debug, Drop)]
pub struct Description {
    /// The name of the type.
    pub name: String,
    /// What the struct or enum of its rows derives in addition to `Clone`, `Copy` and `Debug`.
    pub derives: Vec<String>,
    /// Its parameters.
    pub generics: Generics,
    /// Its fields or variants.
    pub body: Body,
}

/// The fields of a struct, or the variants of an enum.
#[derive(Debug, Drop)]
pub enum Body {
    /// The fields of a struct, at most ten.
    Struct(Value),
    /// The variants of an enum, one to 256.
    Enum(Vec<Variant>),
}

/// A field: its name or its number, its type as written, and its column, if an attribute names it.
#[derive(Debug, Drop)]
pub struct Field {
    pub name: String,
    pub kind: String,
    pub column: Option<String>,
}

impl Field {
    /// Returns the column of the field: the one that is named, or that of its type.
    pub fn container(&self, alloc: Global) -> Result<String, AllocError> {
        match &self.column {
            Some(column) => String::from_str(alloc, column.as_str()),
            None => format!(in alloc; "ContainerOf<{}>", self.kind),
        }
    }
}

/// A variant: its name, and the fields of its values.
#[derive(Debug, Drop)]
pub struct Variant {
    pub name: String,
    pub value: Value,
}

/// The fields of a struct, or of a value of a variant.
#[derive(Debug, Drop)]
pub enum Value {
    Nothing,
    /// One or more fields without names.
    Types(Vec<Field>),
    /// One or more fields with names.
    Fields(Vec<Field>),
}

/// What an attribute belongs to.
#[derive(Clone, Copy, Debug, PartialEq, Eq)]
pub enum Owner {
    Type,
    Field,
    Variant,
}

/// Why a type is refused.
#[derive(Clone, Copy, Debug, PartialEq, Eq)]
pub enum Why {
    NotFound,
    Union,
    Lifetime,
    Parameter,
    Default,
    Bound,
    NoFields,
    TooManyFields,
    NoVariants,
    TooManyVariants,
    Ghost,
    Discriminant,
    Attribute(Owner),
    Derive,
    DeriveTwice,
    /// A derive, and another that it needs.
    DeriveNeeds(&'static str, &'static str),
    DefaultOfEnum,
    ColumnTwice,
    Column,
    SameMethod,
    Type,
    NameExpected,
    Expected(char),
    Unended,
}

impl fmt::Display for Why {
    fn fmt<W: fmt::Write>(&self, f: &mut fmt::Formatter<W>) -> fmt::Result {
        match self {
            Why::NotFound => write!(f, "no struct or enum of this name stands in the file"),
            Why::Union => write!(f, "a union has no rows"),
            Why::Lifetime => write!(f, "a lifetime or a reference"),
            Why::Parameter => write!(f, "a parameter whose name was given before"),
            Why::Default => write!(f, "a parameter with a default"),
            Why::Bound => write!(f, "a bound that is not read: only paths are"),
            Why::NoFields => write!(f, "it has no fields"),
            Why::TooManyFields => write!(f, "more than 10 fields"),
            Why::NoVariants => write!(f, "it has no variants"),
            Why::TooManyVariants => write!(f, "more than 256 variants"),
            Why::Ghost => write!(f, "a ghost field, which a row would not keep"),
            Why::Discriminant => write!(f, "a variant has a number of its own"),
            Why::Attribute(Owner::Type) => write!(
                f,
                "above a type, `columnar(..)` takes only `derive(..)`"
            ),
            Why::Attribute(Owner::Field) => write!(
                f,
                "on a field, `columnar(..)` takes only `column = \"..\"`"
            ),
            Why::Attribute(Owner::Variant) => write!(f, "a variant takes no `columnar(..)`"),
            Why::Derive => write!(
                f,
                "rows derive only PartialEq, Eq, PartialOrd, Ord, Hash and Default, and always Clone, Copy and Debug"
            ),
            Why::DeriveTwice => write!(f, "a derive that was named before"),
            Why::DeriveNeeds(one, other) => write!(f, "`{one}` needs `{other}`"),
            Why::DefaultOfEnum => write!(f, "the rows of an enum have no default"),
            Why::ColumnTwice => write!(f, "a second column of a field"),
            Why::Column => write!(f, "the text of `column` is no type"),
            Why::SameMethod => write!(f, "two variants whose names are the same in lower case"),
            Why::Type => write!(
                f,
                "a type that is not read: only paths, tuples and arrays are"
            ),
            Why::NameExpected => write!(f, "a name is expected"),
            Why::Expected(mark) => write!(f, "`{mark}` is expected"),
            Why::Unended => write!(f, "a text or a comment that begins here has no end"),
        }
    }
}

/// Why no description was made.
#[derive(Clone, Copy, Debug, PartialEq, Eq)]
pub enum Unread {
    Memory,
    /// The number of the refused line, from 1 on, and the reason.
    Refused(usize, Why),
}

impl From<AllocError> for Unread {
    fn from(_error: AllocError) -> Unread {
        Unread::Memory
    }
}
