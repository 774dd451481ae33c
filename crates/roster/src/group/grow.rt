//! Growth, truncation and views of columns of groups.
ghost use Rattle.columnar.specs.DualLaws.{dual_lawful, same_duals};

use super::{GroupContainer, GroupReference};
use columnar::common::{Named, View};
use columnar::fault::GrowError;
use columnar::sums::discriminant::Discriminant;
use columnar::sums::variants::{extend_dual, reserve_dual, truncate_dual};
use columnar::{
    Borrow, Clear, Container, ExtendFrom, Index, Len, Reborrow, ReborrowRef, Reserve, Storage,
    Truncate,
};
use std::alloc::Global;
use std::ops::Range;

impl<SC: Clear, TC: Clear> Clear for GroupContainer<SC, TC, Vec<u8>, Vec<u64>> {
    fn clear(&mut self) {
        self.Solo.clear();
        self.Team.clear();
        self.indexes.clear();
    }
}

impl<SC: Truncate, TC: Truncate> Truncate for GroupContainer<SC, TC, Vec<u8>, Vec<u64>> {
    ghost lawful = { dual_lawful SC.format TC.format SC.lawful TC.lawful };

    fn truncate(&mut self, n: usize) {
        truncate_dual(&mut self.Solo, &mut self.Team, &mut self.indexes, n);
    }
}

impl<SC: Storage, TC: Storage> Storage for GroupContainer<SC, TC, Vec<u8>, Vec<u64>> {
    fn empty(alloc: Global) -> Self {
        let solos = SC::empty(alloc);
        let teams = TC::empty(alloc);
        let indexes = <Discriminant<Vec<u8>, Vec<u64>> as Storage>::empty(alloc);
        GroupContainer {
            Solo: solos,
            Team: teams,
            indexes,
        }
    }

    fn duplicate(&self, alloc: Global) -> Result<Self, GrowError> {
        let solos = self.Solo.duplicate(alloc)?;
        let teams = self.Team.duplicate(alloc)?;
        let indexes = self.indexes.duplicate(alloc)?;
        Ok(GroupContainer {
            Solo: solos,
            Team: teams,
            indexes,
        })
    }
}

impl<SC: Reserve, TC: Reserve> Reserve for GroupContainer<SC, TC, Vec<u8>, Vec<u64>> {
    type Room = (SC::Room, TC::Room, (usize, usize));

    ghost reserves = { ⊥ };

    ghost covers = { λ r rs. ⊥ };

    fn no_room() -> (SC::Room, TC::Room, (usize, usize)) {
        (SC::no_room(), TC::no_room(), (0, 0))
    }

    fn reserve_room(
        &mut self,
        room: (SC::Room, TC::Room, (usize, usize)),
    ) -> Result<(), GrowError> {
        reserve_dual(&mut self.Solo, &mut self.Team, &mut self.indexes, room)
    }
}

/// The values of the range's rows are copied for each variant, then the variants; all or none.
impl<
    'x,
    V: Index + Len + Copy,
    W: Index + Len + Copy,
    SC: ExtendFrom<V>,
    TC: ExtendFrom<W>,
> ExtendFrom<GroupContainer<V, W, &'x [u8], View<'x, u64>>>
    for GroupContainer<SC, TC, Vec<u8>, Vec<u64>> {
    fn add_room(
        room: (SC::Room, TC::Room, (usize, usize)),
        view: GroupContainer<V, W, &'x [u8], View<'x, u64>>,
    ) -> (SC::Room, TC::Room, (usize, usize)) {
        (
            SC::add_room(room.0, view.Solo),
            TC::add_room(room.1, view.Team),
            (
                room.2.0.saturating_add(view.indexes.variant.len()),
                room.2.1.saturating_add(view.indexes.offset.len()),
            ),
        )
    }

    fn extend_from_self(
        &mut self,
        view: GroupContainer<V, W, &'x [u8], View<'x, u64>>,
        range: Range<usize>,
    ) -> Result<(), GrowError> {
        extend_dual(
            &mut self.Solo,
            &mut self.Team,
            &mut self.indexes,
            view.Solo,
            view.Team,
            &view.indexes,
            range,
        )
    }
}

impl<'a, SC: Borrow<'a>, TC: Borrow<'a>> Borrow<'a> for GroupContainer<SC, TC, Vec<u8>, Vec<u64>> {
    type Ref = GroupReference<SC::Ref, TC::Ref>;

    type Borrowed = GroupContainer<SC::Borrowed, TC::Borrowed, &'a [u8], View<'a, u64>>;

    type Parts = Named<SC::Parts, TC::Parts>;

    ghost same_format = { same_duals SC.same_format TC.same_format };

    fn borrow(&'a self) -> GroupContainer<SC::Borrowed, TC::Borrowed, &'a [u8], View<'a, u64>> {
        let solos = self.Solo.borrow();
        let teams = self.Team.borrow();
        let indexes = self.indexes.borrow();
        GroupContainer {
            Solo: solos,
            Team: teams,
            indexes,
        }
    }
}

impl<'a, SC: Container<'a>, TC: Container<'a>> Container<'a>
    for GroupContainer<SC, TC, Vec<u8>, Vec<u64>> {}

impl<'a, 'b, V: Reborrow<'b>, W: Reborrow<'b>> Reborrow<'b>
    for GroupContainer<V, W, &'a [u8], View<'a, u64>>
where
    'a: 'b,
{
    type Short = GroupContainer<V::Short, W::Short, &'b [u8], View<'b, u64>>;

    ghost same_short = { same_duals V.same_short W.same_short };

    fn reborrow(self) -> GroupContainer<V::Short, W::Short, &'b [u8], View<'b, u64>> {
        let GroupContainer {
            Solo: solos,
            Team: teams,
            indexes,
        } = self;
        GroupContainer {
            Solo: solos.reborrow(),
            Team: teams.reborrow(),
            indexes: indexes.reborrow(),
        }
    }
}

impl<'b, S: ReborrowRef<'b>, T: ReborrowRef<'b>> ReborrowRef<'b> for GroupReference<S, T> {
    type ShortRef = GroupReference<S::ShortRef, T::ShortRef>;

    fn reborrow_ref(self) -> GroupReference<S::ShortRef, T::ShortRef> {
        match self {
            GroupReference::Solo(value) => GroupReference::Solo(value.reborrow_ref()),
            GroupReference::Team(values) => GroupReference::Team(values.reborrow_ref()),
        }
    }
}
