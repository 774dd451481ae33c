//! Your own types as rows.

pub use columnar_own::by_refs::ByRefs;
pub use columnar_own::fields::{
    field_of_one, fields_of_eight, fields_of_five, fields_of_four, fields_of_nine, fields_of_seven,
    fields_of_six, fields_of_ten, fields_of_three, fields_of_two,
};
pub use columnar_own::push::{LendRow, PushParts};
pub use columnar_own::rows::{MakeRow, OwnRow, OwnRows};
pub use columnar_own::same::SameParts;
