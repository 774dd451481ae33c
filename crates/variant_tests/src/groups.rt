// A column of groups, `Solo` of a person or `Team` of many: its store equals that of a container written by hand.
use columnar_core::container::Storage;
use columnar_types::types::ContainerOf;
use columnar_variants::cases::{Last, Nth};
use columnar_variants::variants::Variants;
use std::rt::HostRuntime;
use std::test::Fail;
use test_support::columns::takes_ref;
use test_support::holds;
use test_support::stores::is_written;

type Person = (String, u64);

type Groups = Variants<(ContainerOf<Person>, (ContainerOf<Vec<Person>>,))>;

// Alice alone: the slices of the solos, those of the teams, and the variants.
static ALICE: [u64; 19] = [
    96,
    104,
    109,
    120,
    120,
    120,
    136,
    136,
    136,
    136,
    136,
    152,
    5,
    435459550273,
    20,
    0,
    0,
    1,
    1,
];

#[test]
fn groups_are_written_as_by_hand(rt: HostRuntime) -> Result<(), Fail> {
    let alloc = rt.alloc();
    let name = String::from_str(alloc, "Alice")?;
    let group: Nth<Person, Last<Vec<Person>>> = Nth::This((name, 20));
    let mut groups = Groups::empty(alloc);
    holds!(rt; takes_ref(&mut groups, &group));
    holds!(rt; is_written(&groups, &ALICE));
    Ok(())
}
