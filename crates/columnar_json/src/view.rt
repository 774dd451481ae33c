//! How rows are written.

/// The form of a line.
#[derive(Clone, Copy, PartialEq, Drop)]
pub enum Form {
    /// JSON, as `serde_json` writes a value of the type.
    Json,
    /// A record of CSV, as RFC 4180 lays it out.
    Csv,
}

/// How rows are written.
#[derive(Clone, Copy, Drop)]
pub struct View<'a> {
    /// The form of a line.
    pub form: Form,
    /// The names of the fields that are written, in this order; `None`: the whole row.
    pub fields: Option<&'a [&'a [u8]]>,
}
