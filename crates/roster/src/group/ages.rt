//! The ages in rows of persons, teams and groups.
ghost use Rattle.std.specs.Prelude.{◌≡◌, ◌+◌, ◌%◌, ◌^◌, ℕ};
ghost use Rattle.columnar.specs.Format.{IsSound};
ghost use Rattle.columnar.specs.Row.{Row};
ghost use Rattle.roster.specs.Ages.{age, team_ages, group_ages, ages_sum};

use super::GroupReference;
use columnar::{Index, Item, Len, Slice};

/// A row with ages.
pub trait Aged: Item {
    // the sum of the ages in such a row
    ghost ages: { Row → ℕ };

    /// Adds its ages to a sum, which wraps at 2^64.
    ///
    /// # Requires
    /// The row is valid.
    fn add_ages(&self, before: u64) -> u64
        requires { Self.Item.valid self.now }
        ensures { result ≡ (before + ages (Self.Item.meaning self.now)) % 2 ^ 64 };
}

/// A name and an age.
impl<N: Item> Aged for (N, u64) {
    ghost ages = { age };

    fn add_ages(&self, before: u64) -> u64 {
        before.wrapping_add(self.1)
    }
}

/// A team.
impl<W: Index<Ref: Aged>> Aged for Slice<W> {
    ghost ages = { team_ages W.Ref.ages };

    fn add_ages(&self, before: u64) -> u64 {
        let mut sum = before;
        for index in 0..self.len() {
            sum = self.get(index).add_ages(sum);
        }
        sum
    }
}

impl<S: Aged, T: Aged> Aged for GroupReference<S, T> {
    ghost ages = { group_ages S.ages T.ages };

    fn add_ages(&self, before: u64) -> u64 {
        match self {
            GroupReference::Solo(person) => person.add_ages(before),
            GroupReference::Team(team) => team.add_ages(before),
        }
    }
}

/// Returns the sum of the ages of all rows, which wraps at 2^64.
///
/// # Requires
/// The column is well-formed.
pub fn sum_ages<V: Index<Ref: Aged> + Len>(rows: &V) -> u64
    requires { IsSound V.format (V.content rows.now) }
    ensures { result ≡ ages_sum V.Ref.ages (V.format.rows (V.content rows.now)) }
{
    let mut sum = 0;
    for index in 0..rows.len() {
        sum = rows.get(index).add_ages(sum);
    }
    sum
}
