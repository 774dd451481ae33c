//! The parts of a column of your own sum type: the variants of its rows, and a column for the values of each variant.
//! With two variants, each container trait is one call of these functions.

pub use columnar_variants::bank::apart::{columns_of, first_and_others};
pub use columnar_variants::bank::bytes::{
    AsBytesBank, BytesBank, CheckBank, FromBytesBank, StoredBank,
};
pub use columnar_variants::bank::copy::ExtendBank;
pub use columnar_variants::bank::earlier::EarlierBank;
pub use columnar_variants::bank::few::{Digit, FewColumns, Fifteen, Next, Within, Zero};
pub use columnar_variants::bank::grow::{ClearBank, CutBank, ReserveBank, StorageBank};
pub use columnar_variants::bank::owned::{BorrowBank, ReborrowBank};
pub use columnar_variants::bank::push::{PushCase, PushCaseRef};
pub use columnar_variants::bank::{ColumnBank, IndexBank, LenBank};
pub use columnar_variants::case::{push_case, push_ref_case, rows_before};
pub use columnar_variants::cases::{Cases, Last, Nth};
pub use columnar_variants::copy::extend_variants;
pub use columnar_variants::count::{count_variants, judge_counts};
pub use columnar_variants::dual::bytes::{
    byte_slice_of_dual, check_dual, count_dual, judge_dual, load_dual, rows_in_dual, sizes_of_dual,
    slice_of_dual, view_of_dual,
};
pub use columnar_variants::dual::copy::extend_dual;
pub use columnar_variants::dual::earlier::from_old_dual;
pub use columnar_variants::dual::{
    get_dual, len_of_dual, push_first, push_first_ref, push_second, push_second_ref, reserve_dual,
    truncate_dual,
};
pub use columnar_variants::fronts::{count_rows, fronts, fronts_tallied};
pub use columnar_variants::lent::{PushCaseInto, push_into_case, push_into_variants};
pub use columnar_variants::nth::{NthColumn, values_at};
pub use columnar_variants::run::push_variants;
pub use columnar_variants::variants::Variants;
pub use columnar_variants::variants::owned::ReborrowCases;
