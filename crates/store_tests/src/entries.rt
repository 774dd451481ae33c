// What a refused push says about the rows, for nested columns, from the contract of `push` alone.
ghost use Rattle.std.specs.Prelude.{◌≡◌};
ghost use Rattle.store_tests.specs.Entries.{entries_format, RefusedAreDenied};

use columnar::primitive::offsets::Fixeds;
use columnar::{Column, Options, Repeats, Strings, Vecs};

// A number, three optional numbers, and a text that is stored once if it repeats the previous one.
type Entries = (
    Vec<u64>,
    (Vecs<Options<Vec<u32>>, Fixeds<3>>, Repeats<Strings>),
);

// The law of these columns: if an entry is refused with Length or Offset, it is denied together with the existing rows.
#[tactic(auto, using(crate::specs::EntryLaws::entry_denied))]
fn refused_entries_are_denied()
    ensures { RefusedAreDenied }
{}

// Their format is that of the law.
fn entries_are_of_this_format()
    ensures { ⟦<Entries as Column>⟧.format ≡ entries_format }
{}

#[test]
fn entries_have_their_law() {
    refused_entries_are_denied();
    entries_are_of_this_format();
}
