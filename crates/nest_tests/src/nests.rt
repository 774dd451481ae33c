// Lists in lists, and a map of events: pushes by reference.
use crate::event::{Event, happened};
use columnar::bytes::stash::Stash;
use columnar::{ContainerOf, Len, PushRef};
use std::alloc::Global;
use std::rt::HostRuntime;
use std::test::Fail;
use test_support::equal;

type Map = Vec<(String, Vec<(String, Event)>)>;

type Texts = Vec<Vec<Vec<String>>>;

// Pushes a map, and returns the number of rows.
fn rows_of_map(alloc: Global, map: &Map) -> Option<usize> {
    let mut stash: Stash<ContainerOf<Map>, Vec<u8>> = Stash::empty(alloc);
    stash.push_ref(map).ok()?;
    Some(stash.len())
}

// Pushes a list, and returns the number of rows.
fn rows_of_texts(alloc: Global, texts: &Texts) -> Option<usize> {
    let mut stash: Stash<ContainerOf<Texts>, Vec<u8>> = Stash::empty(alloc);
    stash.push_ref(texts).ok()?;
    Some(stash.len())
}

#[test]
fn lists_in_lists_are_pushed_by_reference(rt: HostRuntime) -> Result<(), Fail> {
    let alloc = rt.alloc();
    let events = vec![in alloc; (format!(in alloc; "first")?, happened(alloc, 7)?)]?;
    let map = vec![in alloc; (format!(in alloc; "ada")?, events)]?;
    equal!(rt; rows_of_map(alloc, &map), Some(1));
    let words = vec![in alloc; format!(in alloc; "a")?, format!(in alloc; "bc")?]?;
    let texts = vec![in alloc; vec![in alloc; words]?]?;
    equal!(rt; rows_of_texts(alloc, &texts), Some(1));
    Ok(())
}
