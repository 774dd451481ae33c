//! Groups as owned values of a column.
ghost use Rattle.columnar.specs.Owned.{list_unfit};
ghost use Rattle.roster.specs.Groups.{group_unfit};

use super::{Group, GroupContainer, GroupReference};
use columnar::fault::OwnError;
use columnar::{Columnar, ContainerOf, FromRow, Index, Item, Slice};
use std::alloc::Global;

impl<T: Columnar> Columnar for Group<T> {
    ghost unfit = { group_unfit T.unfit (list_unfit T.unfit) };

    type Container = GroupContainer<T::Container, ContainerOf<Vec<T>>, Vec<u8>, Vec<u64>>;
}

impl<R: Item, V: Index + Copy, T: FromRow<R> + FromRow<V::Ref>> FromRow<GroupReference<R, Slice<V>>>
    for Group<T> {
    fn from_row(alloc: Global, row: GroupReference<R, Slice<V>>) -> Result<Group<T>, OwnError> {
        match row {
            GroupReference::Solo(one) => Ok(Group::Solo(T::from_row(alloc, one)?)),
            GroupReference::Team(many) => Ok(Group::Team(Vec::<T>::from_row(alloc, many)?)),
        }
    }
}
