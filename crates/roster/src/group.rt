//! Groups and their columns: your own sum type, written by hand. All code here uses only what `columnar` exports; each
//! operation on the parts of a column of two variants is one call.
ghost use Rattle.columnar.specs.Discriminants.{forms_content};
ghost use Rattle.columnar.specs.Duals.{dual_content, dual_format};
ghost use Rattle.roster.specs.Groups.{group_row, group_valid, reference_row, reference_valid};

pub mod ages;
pub mod bytes;
pub mod grow;
pub mod owned;
pub mod push;

use columnar::primitive::offsets::Words;
use columnar::sums::discriminant::{Discriminant, Variants};
use columnar::sums::variants::{get_dual, len_of_dual};
use columnar::{Column, Index, Item, Len};

/// One value, or a team of values.
#[derive(Drop)]
pub enum Group<T> {
    Solo(T),
    Team(Vec<T>),
}

/// A row of a column of groups: a row of one value, or of a team.
#[derive(Clone, Copy)]
pub enum GroupReference<S, T> {
    Solo(S),
    Team(T),
}

/// A column of groups: the solos, the teams, and the variant of each row.
#[derive(Clone, Copy, Drop)]
pub struct GroupContainer<SC, TC, CVar = Vec<u8>, COff = Vec<u64>> {
    /// The values of the rows with variant 0.
    pub Solo: SC,
    /// The values of the rows with variant 1.
    pub Team: TC,
    /// The variant of each row.
    pub indexes: Discriminant<CVar, COff>,
}

impl<T: Item> Item for Group<T> {
    ghost meaning = { group_row T.meaning ⟦<Vec<T> as Item>⟧.meaning };

    ghost valid = { group_valid T.valid ⟦<Vec<T> as Item>⟧.valid };

    ghost unbuffered = { T.unbuffered };
}

impl<S: Item, T: Item> Item for GroupReference<S, T> {
    ghost meaning = { reference_row S.meaning T.meaning };

    ghost valid = { reference_valid S.valid T.valid };

    ghost unbuffered = { S.unbuffered × T.unbuffered };
}

impl<SC: Column, TC: Column, CVar: Variants, COff: Words> Column
    for GroupContainer<SC, TC, CVar, COff> {
    ghost format = { dual_format SC.format TC.format };

    ghost content = { λ g. dual_content (SC.content g.Solo) (TC.content g.Team) (forms_content CVar.bytes COff.bytes g.indexes) };

    ghost room = { λ g rs. ⊥ };
}

impl<SC: Column, TC: Column, CVar: Variants, COff: Words> Len
    for GroupContainer<SC, TC, CVar, COff> {
    fn len(&self) -> usize {
        len_of_dual(&self.Solo, &self.Team, &self.indexes)
    }
}

impl<SC: Index, TC: Index, CVar: Variants, COff: Words> Index
    for GroupContainer<SC, TC, CVar, COff> {
    type Ref = GroupReference<SC::Ref, TC::Ref>;

    fn get(&self, index: usize) -> GroupReference<SC::Ref, TC::Ref> {
        match get_dual(&self.Solo, &self.Team, &self.indexes, index) {
            Ok(solo) => GroupReference::Solo(solo),
            Err(team) => GroupReference::Team(team),
        }
    }
}
