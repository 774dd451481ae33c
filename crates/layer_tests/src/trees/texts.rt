// Trees of numbers and texts: a column of trees over a pair that contains strings.
use super::grove::{Grove, kid_of, node_of, tree};
use columnar_strings::string::Strings;
use std::test::Fail;
use test_support::stashes::row_of;
use test_support::{equal, holds};

#[test]
fn trees_of_numbers_and_texts(rt: HostRuntime) -> Result<(), Fail> {
    let alloc = rt.alloc();
    let mut grove = Grove::<(Vec<u64>, Strings)>::new(alloc)?;
    let kids = [tree(alloc, (2u64, "two"), [])?, tree(alloc, (3, ""), [])?];
    grove.push(tree(alloc, (1, "one"), kids)?)?;
    let words = [
        48,
        64,
        96,
        120,
        144,
        150,
        0,
        3,
        0,
        3,
        3,
        3,
        1,
        2,
        3,
        3,
        6,
        6,
        122558844595823,
    ];
    holds!(rt; grove.writes(words.as_slice()));
    let opened = grove.reopened(alloc).expect(&rt, "accepted");
    let root = row_of(&opened, 0);
    equal!(rt; node_of(root), Some(((1, "one".as_bytes()), 2)));
    equal!(rt; node_of(kid_of(root, 0)), Some(((2, "two".as_bytes()), 0)));
    equal!(rt; node_of(kid_of(root, 1)), Some(((3, "".as_bytes()), 0)));
    Ok(())
}
