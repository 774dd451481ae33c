//! Rank, select and cursors, compared with plain scans of random bits.
ghost use Rattle.std.specs.Prelude.{◌≡◌, IfOk};
ghost use Rattle.columnar_core.specs.Format.{IsSound};
ghost use Rattle.columnar_sums.specs.RankColumns.{ranks_format, owned_ranks};

use columnar_core::container::{Borrow, Storage};
use columnar_core::traits::{Len, Push};
use columnar_sums::rank_select::RankSelect;
use std::alloc::Global;
use std::test::Fail;
use test_support::columns::copied;
use test_support::holds;

type Held = RankSelect<Vec<u64>, Vec<u64>, [u64; 2]>;

// Returns the next number of a sequence.
fn next(seed: &mut u64) -> u64 {
    let mut x = *seed;
    x ^= x << 13;
    x ^= x >> 7;
    x ^= x << 17;
    *seed = x;
    x
}

// Counts the set bits among the first `index` by a scan.
fn plain_rank(bits: &[bool], index: usize) -> usize {
    let mut ones = 0usize;
    for bit in bits.iter().take(index) {
        if *bit {
            ones = ones.saturating_add(1);
        }
    }
    ones
}

// Finds the set bit with `rank` set bits before it, by a scan.
fn plain_select(bits: &[bool], rank: u64) -> Option<usize> {
    let mut ones = 0u64;
    for at in 0..bits.len() {
        if bits[at] {
            if ones == rank {
                return Some(at);
            }
            ones = ones.saturating_add(1);
        }
    }
    None
}

// Returns the rank if `index` is in range; `rank_in_turn` gives the same.
fn rank_of(column: &Held, index: usize) -> Result<usize, Fail>
    requires { IsSound ranks_format (owned_ranks column.now) }
{
    if index > column.len() {
        return Err(Fail::from("past the end"));
    }
    let rank = column.rank(index);
    if column.rank_in_turn(index) != rank {
        return Err(Fail::from("in turn it is another"));
    }
    Ok(rank)
}

// Tests whether ranks, selects and a cursor agree with a scan.
fn agrees(column: &Held, bits: &[bool], seed: &mut u64) -> Result<bool, Fail>
    requires { IsSound ranks_format (owned_ranks column.now) }
{
    let span = (bits.len() as u64).saturating_add(1);
    let total = plain_rank(bits, bits.len());
    let mut same = rank_of(column, bits.len())? == total;
    for _ in 0..64 {
        let index = (next(seed) % span) as usize;
        same = same && rank_of(column, index)? == plain_rank(bits, index);
        let rank = next(seed) % (total as u64).saturating_add(2);
        same = same && column.select(rank) == plain_select(bits, rank);
    }
    let mut cursor = column.cursor();
    for at in 0..bits.len() {
        if bits[at] {
            same = same && cursor.next_one() == Some(at);
        }
    }
    Ok(same && cursor.next_one().is_none() && cursor.rank() == total as u64)
}

// Returns `n` random bits, about one in `sparse` of them set.
fn random_bits(alloc: Global, n: usize, sparse: u64, seed: &mut u64) -> Result<Vec<bool>, Fail> {
    let mut bits = Vec::new(alloc);
    for _ in 0..n {
        bits.push(next(seed) % sparse.max(1) == 0)?;
    }
    Ok(bits)
}

// Creates a column of these bits.
fn column_of<C: Storage + Push<bool>>(alloc: Global, bits: &[bool]) -> Result<C, Fail>
    ensures { IfOk result (λ c. IsSound C.format (C.content c)) }
{
    let mut column = C::empty(alloc);
    if Push::extend(&mut column, bits.iter().copied()).is_err() {
        return Err(Fail::from("refused"));
    }
    Ok(column)
}

// Copies its rows from `start` on.
fn end_of(alloc: Global, column: &Held, start: usize) -> Result<Held, Fail>
    requires { IsSound ranks_format (owned_ranks column.now) }
    ensures { IfOk result (λ c. IsSound ranks_format (owned_ranks c)) }
{
    let mut copy = <Held as Storage>::empty(alloc);
    if !copied(&mut copy, column.borrow(), start, column.len()) {
        return Err(Fail::from("refused"));
    }
    Ok(copy)
}

// Tests whether `n` random bits agree with a scan, and a copy of their end.
fn agrees_at_random(alloc: Global, n: usize, sparse: u64, seed: &mut u64) -> Result<bool, Fail> {
    let bits = random_bits(alloc, n, sparse, seed)?;
    let column = column_of::<Held>(alloc, bits.as_slice())?;
    let whole = agrees(&column, bits.as_slice(), seed)?;
    let start = ((next(seed) % (n as u64).saturating_add(1)) as usize).min(bits.len());
    let copy = end_of(alloc, &column, start)?;
    Ok(whole && agrees(&copy, &bits.as_slice()[start..], seed)?)
}

#[test]
fn random_bits_of_many_lengths(rt: HostRuntime) -> Result<(), Fail> {
    let mut seed = 88172645463325252;
    for n in [0, 1, 63, 64, 65, 1023, 1024, 1025, 2048, 65536] {
        for sparse in [1, 2, 40, 3000] {
            holds!(rt; agrees_at_random(rt.alloc(), n, sparse, &mut seed)?);
        }
    }
    Ok(())
}
