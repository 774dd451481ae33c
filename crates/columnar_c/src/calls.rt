//! The exported functions. They require only that each pointer points to as many bytes as its length says.
ghost use Rattle.std.specs.Prelude.{◌≡◌, ◌≤◌, ◌↔◌, ◌⊎◌, length, None};
ghost use Rattle.columnar_c.specs.Answers.{bounds_of, Judged, Counted, IsNoType};

use crate::answer::{
    ACCEPTED, BROKEN, Fault, NO_BOUNDS, bounds_of_number, fault_in_store, fault_in_text, no_fault,
    unread,
};
use columnar_schema::typed::Type;
use std::alloc::Global;

/// Tests whether the bytes frame a well-formed column of the type in the text. `bounds` says how the ends of the lists
/// of `Vec<T>` are stored (`bounds_of_number`).
///
/// Returns ACCEPTED if they do. Otherwise it returns BROKEN, with the first broken rule and its slice; NO_TYPE, with
/// the first position of the text that cannot be parsed; NO_MEMORY if the allocation for the type fails; or NO_BOUNDS.
#[unsafe(no_mangle)]
pub extern "C" fn columnar_check(
    alloc: Global,
    text: &[u8],
    bounds: u32,
    bytes: &[u8],
    fault: &mut Fault,
) -> u32
    ensures judged { result ≤ 1 → Judged bounds text.now bytes.now result fault.new.rule fault.new.slice }
    ensures untyped { result ≡ 2 → IsNoType bounds text.now }
    ensures unbroken { (result ≡ 1) ⊎ (fault.new.rule ≡ 0) }
    ensures place { fault.new.place ≤ length text.now }
    ensures bounds { (result ≡ 4) ↔ (bounds_of bounds ≡ None) }
    ensures answers { result ≤ 4 }
{
    let mut rows = 0;
    columnar_rows(alloc, text, bounds, bytes, &mut rows, fault)
}

/// Does the same as `columnar_check`, and sets `rows` to the number of rows of an accepted store, and to 0 otherwise.
#[unsafe(no_mangle)]
pub extern "C" fn columnar_rows(
    alloc: Global,
    text: &[u8],
    bounds: u32,
    bytes: &[u8],
    rows: &mut usize,
    fault: &mut Fault,
) -> u32
    ensures counted { result ≤ 1 → Counted bounds text.now bytes.now result rows.new fault.new.rule fault.new.slice }
    ensures uncounted { (result ≡ 0) ⊎ (rows.new ≡ 0) }
    ensures untyped { result ≡ 2 → IsNoType bounds text.now }
    ensures unbroken { (result ≡ 1) ⊎ (fault.new.rule ≡ 0) }
    ensures place { fault.new.place ≤ length text.now }
    ensures bounds { (result ≡ 4) ↔ (bounds_of bounds ≡ None) }
    ensures answers { result ≤ 4 }
{
    *rows = 0;
    *fault = no_fault();
    let Some(lists) = bounds_of_number(bounds) else {
        return NO_BOUNDS;
    };
    match Type::parse(alloc, text, lists) {
        Ok(it) => match it.count_rows(bytes) {
            Ok(count) => {
                *rows = count;
                ACCEPTED
            }
            Err(broken) => {
                *fault = fault_in_store(&broken);
                BROKEN
            }
        },
        Err(refused) => {
            *fault = fault_in_text(text, &refused);
            unread(&refused)
        }
    }
}
