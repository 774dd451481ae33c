//! Faults with the name of their slice.
ghost use Rattle.std.specs.Prelude.{◌≡◌, ◌<◌, ◌≤◌, length, slice_get, Some, IsSome, IsNone, IfSome, OnSome, string_bytes};
ghost use Rattle.columnar_base.specs.Faults.{fault_number, fault_slice};

use columnar_base::fault::StoreFault;
use std::fmt::{self, Display, Formatter, Write};

// The last of the rules of the whole store, by number.
const LAST_OF_WHOLE: u8 = 5;

/// A fault and the name of its slice. Its text is that of the fault, followed by the name in parentheses, if there is
/// one: `the bounds decrease or do not end at the last value, slice 3 (tags.bounds)`.
#[derive(Clone, Copy, Debug)]
pub struct NamedFault<'n> {
    /// The fault.
    pub fault: StoreFault,
    /// The name of its slice. `None` if the broken rule is one of the whole store, which no slice breaks, or if the
    /// slice has no name.
    pub name: Option<&'n str>,
}

/// Names the slices of faults.
pub trait FaultNames {
    /// Adds the name of its slice to the fault, from the names of all slices in order, as `slice_names` returns them.
    fn named<'n>(&self, names: &'n [String]) -> NamedFault<'n>;
}

impl FaultNames for StoreFault {
    fn named<'n>(&self, names: &'n [String]) -> NamedFault<'n>
        ensures fault { result.fault ≡ self.now }
        ensures whole { fault_number self.now ≤ 5 → IsNone result.name }
        ensures name { 5 < fault_number self.now → IfSome (slice_get names.now (fault_slice self.now)) (λ s. IfSome result.name (λ n. n.now ≡ string_bytes s)) }
        ensures known { 5 < fault_number self.now → fault_slice self.now < length names.now → IsSome result.name }
    {
        NamedFault {
            fault: *self,
            name: name_of(*self, names),
        }
    }
}

// Returns the name of the slice of a fault, if a slice breaks the rule.
fn name_of<'n>(fault: StoreFault, names: &'n [String]) -> Option<&'n str>
    ensures whole { fault_number fault ≤ 5 → IsNone result }
    ensures name { 5 < fault_number fault → IfSome (slice_get names.now (fault_slice fault)) (λ s. IfSome result (λ n. n.now ≡ string_bytes s)) }
    ensures known { 5 < fault_number fault → fault_slice fault < length names.now → IsSome result }
{
    if fault.number() <= LAST_OF_WHOLE {
        return None;
    }
    match names.get(fault.slice()) {
        Some(name) => Some(name.as_str()),
        None => None,
    }
}

impl<'n> Display for NamedFault<'n> {
    fn fmt<W: Write>(&self, f: &mut Formatter<W>) -> fmt::Result {
        match self.name {
            Some(name) if !name.is_empty() => write!(f, "{} ({name})", self.fault),
            _ => write!(f, "{}", self.fault),
        }
    }
}
