//! The exported function that writes a row as JSON. It requires only that each pointer points to as many bytes as its
//! length says.
ghost use Rattle.std.specs.Prelude.{◌≡◌, ◌++◌, ◌<◌, ◌≤◌, ◌↔◌, ◌⊎◌, length, drop, None, IfOk, IfErr};
ghost use Rattle.columnar_c.specs.Answers.{IsNoType, bounds_of};
ghost use Rattle.columnar_c.specs.RowAnswers.{IsRowText, IsUntold, Told, refusal_number};

use crate::answer::{
    ACCEPTED, BROKEN, Fault, NO_BOUNDS, NO_MEMORY, bounds_of_number, fault_in_store, fault_in_text,
    no_fault, unread,
};
use columnar_core::fault::StoreFault;
use columnar_json::rows::Rows;
use columnar_json::unwritten::Unwritten;
use columnar_schema::typed::Type;
use std::alloc::Global;

/// There is no row with this index.
pub const NO_ROW: u32 = 5;
/// A text in the row is not UTF-8.
pub const NOT_TEXT: u32 = 6;
/// An array in the row has another length than its type.
pub const WRONG_LENGTH: u32 = 7;
/// The text does not fit in the buffer.
pub const NO_ROOM: u32 = 8;

// Why there is no text.
#[derive(Drop)]
enum Untold {
    // The store breaks this rule.
    Broken(StoreFault),
    // The row is not written.
    Row(Unwritten),
}

// Returns the JSON text of row `index` of the bytes, as a column of the type.
fn row_text(alloc: Global, kind: &Type, bytes: &[u8], index: usize) -> Result<Vec<u8>, Untold>
    ensures text { IfOk result (λ v. IsRowText kind.now.schema bytes.now index v.items) }
    ensures untold { IfErr result (IsUntold kind.now.schema bytes.now index) }
{
    match Rows::open(kind, bytes) {
        Ok(rows) => {
            let mut text = Vec::new(alloc);
            match rows.write_row(index, &mut text) {
                Ok(()) => Ok(text),
                Err(why) => Err(Untold::Row(why)),
            }
        }
        Err(fault) => Err(Untold::Broken(fault)),
    }
}

// Copies the text to the beginning of the buffer if it fits. Returns ACCEPTED or NO_ROOM.
fn put(text: &[u8], out: &mut [u8], written: &mut usize) -> u32
    ensures fits { length text.now ≤ length out.old → (result ≡ 0) × (out.new ≡ text.now ++ drop (length text.now) out.old) }
    ensures short { length out.old < length text.now → (result ≡ 8) × (out.new ≡ out.old) }
    ensures written { written.new ≡ length text.now }
{
    *written = text.len();
    if text.len() > out.len() {
        return NO_ROOM;
    }
    out[..text.len()].copy_from_slice(text);
    ACCEPTED
}

// Returns the number of a refusal.
fn unwritten_number(why: Unwritten) -> u32
    ensures { result ≡ refusal_number why }
{
    match why {
        Unwritten::Memory => NO_MEMORY,
        Unwritten::NoRow => NO_ROW,
        Unwritten::NotText => NOT_TEXT,
        Unwritten::WrongLength => WRONG_LENGTH,
    }
}

/// Writes the JSON text of row `index` to the beginning of `out`, and its length to `written`. `bounds` says how the
/// ends of the lists of `Vec<T>` are stored (`bounds_of_number`). The whole store is tested first.
///
/// Returns ACCEPTED if the row is written. Otherwise `out` stays, and it returns NO_ROOM, with the length of the text
/// in `written`; NO_ROW, NOT_TEXT or WRONG_LENGTH; BROKEN, with the first broken rule and its slice; NO_TYPE, with the first
/// position of the text that cannot be parsed; NO_MEMORY if an allocation fails; or NO_BOUNDS. `written` is then 0.
#[unsafe(no_mangle)]
pub extern "C" fn columnar_row_json(
    alloc: Global,
    text: &[u8],
    bounds: u32,
    bytes: &[u8],
    index: usize,
    out: &mut [u8],
    written: &mut usize,
    fault: &mut Fault,
) -> u32
    ensures told { (result ≤ 1) ⊎ (5 ≤ result) → Told bounds text.now bytes.now index result out.old out.new written.new fault.new.rule fault.new.slice }
    ensures stays { (result ≡ 0) ⊎ (out.new ≡ out.old) }
    ensures unwritten { ((result ≡ 0) ⊎ (result ≡ 8)) ⊎ (written.new ≡ 0) }
    ensures untyped { result ≡ 2 → IsNoType bounds text.now }
    ensures unbroken { (result ≡ 1) ⊎ (fault.new.rule ≡ 0) }
    ensures place { fault.new.place ≤ length text.now }
    ensures bounds { (result ≡ 4) ↔ (bounds_of bounds ≡ None) }
    ensures answers { result ≤ 8 }
{
    *written = 0;
    *fault = no_fault();
    let Some(lists) = bounds_of_number(bounds) else {
        return NO_BOUNDS;
    };
    match Type::parse(alloc, text, lists) {
        Ok(it) => match row_text(alloc, &it, bytes, index) {
            Ok(line) => put(line.as_slice(), out, written),
            Err(Untold::Broken(broken)) => {
                *fault = fault_in_store(&broken);
                BROKEN
            }
            Err(Untold::Row(why)) => unwritten_number(why),
        },
        Err(refused) => {
            *fault = fault_in_text(text, &refused);
            unread(&refused)
        }
    }
}
