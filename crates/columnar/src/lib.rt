//! Columns: lists of structured rows, stored in a few flat slices that can be read in place from bytes.
//!
//! Each item has the path that it has in Rust's `columnar`. Items that only this library has are next to them.
#![tactic(auto)]

pub mod adts;
pub mod boxed;
pub mod bytes;
pub mod common;
pub mod fault;
pub mod lookback;
pub mod names;
pub mod operators;
pub mod own;
pub mod primitive;
pub mod rc;
pub mod string;
pub mod sums;
pub mod tuple;
pub mod vector;

pub use columnar_cells::index_mut::IndexMut;
pub use columnar_cells::items::{Field, SetItem};
pub use columnar_cells::lent::{EveryCode, Lent, ValueMut};
pub use columnar_cells::row_mut::RowMut;
pub use columnar_cells::set::{SetAny, SetRow};
pub use columnar_core::bytes::{AsBytes, Check, FromBytes, Stored};
pub use columnar_core::container::{
    Borrow, Container, ContainerBytes, ExtendFrom, Reborrow, ReborrowRef, Reserve, Storage,
    Truncate,
};
pub use columnar_core::offsets::{ExtendShifted, Offsets, PushAfter, StoredOffsets};
pub use columnar_core::slice::Slice;
pub use columnar_core::traits::{
    Clear, Column, CopyAs, Index, IndexAs, Item, Len, Push, PushInto, PushRef,
};
pub use columnar_lists::vector::Vecs;
pub use columnar_lookback::lookbacks::Lookbacks;
pub use columnar_lookback::repeats::Repeats;
pub use columnar_lookback::same::SameAs;
pub use columnar_names::names::SliceNames;
pub use columnar_own::push::{LendRow, PushParts};
pub use columnar_own::rows::{MakeRow, OwnRow, OwnRows};
pub use columnar_own::same::SameParts;
pub use columnar_strings::string::Strings;
pub use columnar_sums::discriminant::Discriminant;
pub use columnar_sums::option::Options;
pub use columnar_sums::rank_select::{RankSelect, RankSelectCursor};
pub use columnar_sums::result::Results;
pub use columnar_types::into_value::IntoValue;
pub use columnar_types::types::{BorrowedOf, Columnar, ContainerOf, FromRow, Ref};
