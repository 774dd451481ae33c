//! The return values of the calls, and what they report about a store or the text of its type.
ghost use Rattle.std.specs.Prelude.{◌≡◌, ◌≢◌, ◌≤◌, length, IfSome, IfNone};
ghost use Rattle.columnar_core.specs.Faults.{fault_number, fault_slice};
ghost use Rattle.columnar_syntax.specs.declared.text.Mistake.TheVariants.{Memory};
ghost use Rattle.columnar_c.specs.Answers.{bounds_of};

use columnar_core::fault::StoreFault;
use columnar_syntax::schema::Bounds;
use columnar_syntax::text::{Mistake, Refused};

/// The store is accepted.
pub const ACCEPTED: u32 = 0;
/// The store breaks a rule.
pub const BROKEN: u32 = 1;
/// The text is not a type.
pub const NO_TYPE: u32 = 2;
/// The allocation for the type failed.
pub const NO_MEMORY: u32 = 3;
/// No kind of bounds has this number.
pub const NO_BOUNDS: u32 = 4;

/// What is wrong with a store or the text of its type. All fields are 0 if nothing is wrong.
#[repr(C)]
#[derive(Clone, Copy, PartialEq, Drop)]
pub struct Fault {
    /// The number of the first broken rule, from 1 to 19.
    pub rule: u32,
    /// What is wrong with the text: 1 no name at the position, of a type, a struct, an enum, a field or a variant, 2
    /// another byte is expected there, 3 the text continues after the type, 4 a tuple or a variant has more than ten
    /// fields, a struct more than a hundred, or an enum more than 256 variants, 5 types are nested too deeply,
    /// 6 there is no number at the position, or it is too large, 7 the name there stands again later, 8 a comment, an
    /// attribute or a quoted text has no end.
    pub mistake: u32,
    /// The slice that breaks the rule.
    pub slice: usize,
    /// The position in the text that cannot be parsed.
    pub place: usize,
    /// The byte that is expected there.
    pub wanted: u32,
}

/// Returns the fault in which all fields are 0.
pub fn no_fault() -> Fault
    ensures rule { result.rule ≡ 0 }
    ensures place { result.place ≡ 0 }
{
    Fault {
        rule: 0,
        mistake: 0,
        slice: 0,
        place: 0,
        wanted: 0,
    }
}

/// Returns the rule that a store breaks, and the slice.
pub fn fault_in_store(fault: &StoreFault) -> Fault
    ensures rule { result.rule ≡ fault_number fault.now }
    ensures slice { result.slice ≡ fault_slice fault.now }
    ensures place { result.place ≡ 0 }
{
    Fault {
        rule: fault.number() as u32,
        slice: fault.slice(),
        ..no_fault()
    }
}

/// Returns what is wrong with the text of a type.
pub fn fault_in_text(text: &[u8], refused: &Refused) -> Fault
    ensures rule { result.rule ≡ 0 }
    ensures place { result.place ≤ length text.now }
{
    Fault {
        mistake: mistake_number(refused.mistake),
        place: refused.at.min(text.len()),
        wanted: wanted_byte(refused.mistake),
        ..no_fault()
    }
}

/// Returns NO_MEMORY if an allocation failed, and NO_TYPE otherwise.
pub fn unread(refused: &Refused) -> u32
    ensures no_type { 2 ≤ result }
    ensures no_memory { result ≤ 3 }
    ensures refused { result ≡ 2 → refused.now.mistake ≢ Memory }
{
    match refused.mistake {
        Mistake::Memory => NO_MEMORY,
        _ => NO_TYPE,
    }
}

fn mistake_number(mistake: Mistake) -> u32 {
    match mistake {
        Mistake::Memory => 0,
        Mistake::Name => 1,
        Mistake::Wanted(_) => 2,
        Mistake::Longer => 3,
        Mistake::Wide => 4,
        Mistake::Deep => 5,
        Mistake::Number => 6,
        Mistake::Twice => 7,
        Mistake::Unended => 8,
        Mistake::Undeclared => 1,
    }
}

fn wanted_byte(mistake: Mistake) -> u32 {
    match mistake {
        Mistake::Wanted(byte) => byte as u32,
        _ => 0,
    }
}

/// Returns how the ends of the lists of `Vec<T>` are stored: 0 as 64-bit numbers, 1 in unary, 2 as multiples of a
/// stride; `None` for any other number.
pub fn bounds_of_number(number: u32) -> Option<Bounds>
    ensures { result ≡ bounds_of number }
{
    if number == 0 {
        Some(Bounds::Words)
    } else if number == 1 {
        Some(Bounds::Unaries)
    } else if number == 2 {
        Some(Bounds::Strides)
    } else {
        None
    }
}
