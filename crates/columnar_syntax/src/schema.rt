//! Column types as values that are read at run time.

/// How the ends of lists and of texts are stored.
#[derive(Clone, Copy, PartialEq, Drop)]
pub enum Bounds {
    /// As 64-bit numbers.
    Words,
    /// As multiples of a stride for as long as they fit, then as numbers.
    Strides,
    /// In unary, as counted bits.
    Unaries,
}

/// A column type whose parts are no columns of rows.
#[derive(Clone, Copy, PartialEq, Drop)]
pub enum Leaf {
    /// `u8`
    U8,
    /// `u16`
    U16,
    /// `u32`
    U32,
    /// `u64`
    U64,
    /// `u128`
    U128,
    /// `usize`
    Usize,
    /// `i8`
    I8,
    /// `i16`
    I16,
    /// `i32`
    I32,
    /// `i64`
    I64,
    /// `i128`
    I128,
    /// `isize`
    Isize,
    /// `f32`
    F32,
    /// `f64`
    F64,
    /// `bool`
    Bool,
    /// `char`
    Char,
    /// `()`
    Unit,
    /// Spans of time, in seconds and nanoseconds.
    Duration,
    /// Texts, with bounds of this kind.
    Text(Bounds),
}

/// How JSON writes the fields of a type.
#[derive(Clone, Copy, PartialEq, Drop)]
pub enum Brackets {
    /// As an array.
    Square,
    /// As an object.
    Curly,
    /// As the one field itself.
    Bare,
}

/// A column type.
#[derive(Drop)]
pub enum Schema {
    /// Rows without parts.
    Simple(Leaf),
    /// Optional rows.
    Optional(Box<Schema>),
    /// Rows that are values or errors, in this order.
    Fallible(Box<Schema>, Box<Schema>),
    /// Lists of rows, with bounds of this kind.
    Lists(Bounds, Box<Schema>),
    /// Rows of one field.
    Solo(Brackets, Box<Schema>),
    /// Rows of several fields: the first, and the others as `Beside`.
    Tuple(Brackets, Box<Schema>, Box<Schema>),
    /// The fields of a tuple from the second on: one, and those after it. The tuple's own test compares their numbers
    /// of rows.
    Beside(Box<Schema>, Box<Schema>),
    /// A field with this name.
    Field(Vec<u8>, Box<Schema>),
    /// Lists of this length, with bounds as numbers.
    Array(usize, Box<Schema>),
    /// Rows of which a run is stored once.
    Repeated(Box<Schema>),
    /// Rows that are values, or look back to one of the last 256 values.
    Recalled(Box<Schema>),
    /// Rows of an enum, by its variants: one, or several as `Beside`.
    Sum(Box<Schema>),
    /// A variant with this name, without a value.
    Named(Vec<u8>),
    /// A variant with this name. JSON writes these brackets around its value.
    Case(Vec<u8>, Brackets, Box<Schema>),
}
