//! Pushes of groups: by reference, by value, and as rows of a column.
use super::{Group, GroupContainer, GroupReference};
use columnar::fault::GrowError;
use columnar::sums::variants::{push_first, push_first_ref, push_second, push_second_ref};
use columnar::{Item, Push, PushRef, Truncate};

impl<T: Item, SC: Truncate + PushRef<T>, TC: Truncate + PushRef<Vec<T>>> PushRef<Group<T>>
    for GroupContainer<SC, TC, Vec<u8>, Vec<u64>> {
    fn push_ref(&mut self, item: &Group<T>) -> Result<(), GrowError> {
        match item {
            Group::Solo(value) => push_first_ref(
                &mut self.Solo,
                &self.Team,
                &mut self.indexes,
                value,
            ),
            Group::Team(values) => push_second_ref(
                &self.Solo,
                &mut self.Team,
                &mut self.indexes,
                values,
            ),
        }
    }
}

impl<'x, T: Item, SC: Truncate + PushRef<T>, TC: Truncate + PushRef<Vec<T>>> Push<&'x Group<T>>
    for GroupContainer<SC, TC, Vec<u8>, Vec<u64>> {
    fn push(&mut self, item: &'x Group<T>) -> Result<(), GrowError> {
        self.push_ref(item)
    }
}

impl<T: Item, SC: Truncate + Push<T>, TC: Truncate + Push<Vec<T>>> Push<Group<T>>
    for GroupContainer<SC, TC, Vec<u8>, Vec<u64>> {
    fn push(&mut self, item: Group<T>) -> Result<(), GrowError> {
        match item {
            Group::Solo(value) => push_first(&mut self.Solo, &self.Team, &mut self.indexes, value),
            Group::Team(values) => push_second(
                &self.Solo,
                &mut self.Team,
                &mut self.indexes,
                values,
            ),
        }
    }
}

/// Pushes a row that was read from a column.
impl<S: Item, T: Item, SC: Truncate + Push<S>, TC: Truncate + Push<T>> Push<GroupReference<S, T>>
    for GroupContainer<SC, TC, Vec<u8>, Vec<u64>> {
    fn push(&mut self, item: GroupReference<S, T>) -> Result<(), GrowError> {
        match item {
            GroupReference::Solo(value) => push_first(
                &mut self.Solo,
                &self.Team,
                &mut self.indexes,
                value,
            ),
            GroupReference::Team(values) => push_second(
                &self.Solo,
                &mut self.Team,
                &mut self.indexes,
                values,
            ),
        }
    }
}
