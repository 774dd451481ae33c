//! Rank, select and cursors, by worked rows.
ghost use Rattle.std.specs.Prelude.{◌≡◌, ◌≤◌, length, IfOk, IfSome};
ghost use Rattle.columnar_core.specs.Format.{IsSound};
ghost use Rattle.columnar_sums.specs.RankColumns.{ranks_format, owned_ranks, ranked_bits};

use columnar_core::container::{Borrow, Storage};
use columnar_core::tally::Tally;
use columnar_core::traits::Index;
use columnar_core::words::Words;
use columnar_sums::rank_select::{Cursor, RankSelect, select_in_word};
use std::alloc::Global;
use std::test::Fail;
use test_support::{equal, holds};

type Held = RankSelect<Vec<u64>, Vec<u64>, [u64; 2]>;

// Creates n bits, with these set.
fn column(alloc: Global, n: usize, places: &[usize]) -> Result<Held, Fail>
    ensures sound { IfOk result (λ c. IsSound ranks_format (owned_ranks c)) }
    ensures len { IfOk result (λ c. length (ranked_bits c) ≡ n) }
{
    let mut column = <Held as Storage>::empty(alloc);
    for i in 0..n {
        if column.push_bit(places.contains(&i)).is_err() {
            return Err(Fail::from("refused"));
        }
    }
    Ok(column)
}

// A move of a cursor and its result, or the cursor's position.
#[derive(Clone, Copy)]
enum Move {
    Next(Option<usize>),
    Step(Option<bool>),
    ToRank(u64, Option<usize>),
    ToPos(usize, bool),
    Pos(usize),
    Rank(u64),
}

// Tests whether a move has its result. A seek backwards has none.
fn gives<CC: Words, VC: Words, WC: Words>(
    cursor: &mut Cursor<'_, CC, VC, WC>,
    step: &Move,
) -> bool {
    match *step {
        Move::Next(place) => cursor.next_one() == place,
        Move::Step(bit) => cursor.step() == bit,
        Move::ToRank(rank, place) => cursor.rank() <= rank && cursor.seek_to_rank(rank) == place,
        Move::ToPos(pos, inside) => cursor.pos() <= pos && cursor.seek_to_pos(pos) == inside,
        Move::Pos(pos) => cursor.pos() == pos,
        Move::Rank(rank) => cursor.rank() == rank,
    }
}

// Tests whether all moves of a cursor over n bits, with these set, have their results.
fn moves(alloc: Global, n: usize, places: &[usize], steps: &[Move]) -> Result<bool, Fail> {
    let bits = column(alloc, n, places)?;
    let mut cursor = bits.cursor();
    for step in steps {
        if !gives(&mut cursor, step) {
            return Ok(false);
        }
    }
    Ok(cursor.total_bits() == n)
}

#[test]
fn places_of_few_bits(rt: HostRuntime) -> Result<(), Fail> {
    let bits = column(rt.alloc(), 3, &[0, 2])?;
    for (rank, place) in [
        (0, Some(0)),
        (1, Some(2)),
        (2, None),
        (1000, None),
        (4294967296, None),
    ] {
        equal!(rt; bits.select(rank), place);
    }
    equal!(rt; bits.rank(3), 2);
    equal!(rt; bits.get(1), false);
    Ok(())
}

#[test]
fn places_in_one_word(rt: HostRuntime) -> Result<(), Fail> {
    for (word, rank, place) in [
        (0b10110, 0, 1),
        (0b10110, 1, 2),
        (0b10110, 2, 4),
        (0b10110, 3, 64),
        (u64::MAX, 63, 63),
        (u64::MAX, 64, 64),
    ] {
        equal!(rt; select_in_word(word, rank), place);
    }
    Ok(())
}

#[test]
fn ranks_over_chunks(rt: HostRuntime) -> Result<(), Fail> {
    let bits = column(rt.alloc(), 4096, &[1023, 1024])?;
    equal!(rt; bits.counts.as_slice(), [1, 2, 2, 2].as_slice());
    equal!(rt; bits.rank(1024), 1);
    equal!(rt; bits.rank(1025), 2);
    equal!(rt; bits.select(1), Some(1024));
    equal!(rt; bits.select(2), None);
    equal!(rt; bits.borrow().rank(1025), 2);
    Ok(())
}

// Returns the result of `select` on a column of 64 counted chunks, and what it read.
fn place_read(bits: &Held, rank: u64) -> Option<(Option<usize>, Tally)>
    requires { IsSound ranks_format (owned_ranks bits.now) }
    ensures counts { IfSome result (λ p. p.1.counts ≤ 8) }
    ensures words { IfSome result (λ p. length p.1.words ≤ 17) }
{
    if bits.counts.len() != 64 {
        return None;
    }
    let mut tally = Tally::new();
    let place = bits.select_tallied(rank, &mut tally);
    Some((place, tally))
}

#[test]
fn places_among_64_chunks(rt: HostRuntime) -> Result<(), Fail> {
    let bits = column(rt.alloc(), 65536, &[0, 1023, 40000, 65535])?;
    for (rank, place) in [
        (0, Some(0)),
        (1, Some(1023)),
        (2, Some(40000)),
        (3, Some(65535)),
        (4, None),
    ] {
        holds!(rt; place_read(&bits, rank).is_some_and(|read| read.0 == place));
    }
    Ok(())
}

#[test]
fn cursor_over_two_words(rt: HostRuntime) -> Result<(), Fail> {
    let steps = [
        Move::Next(Some(63)),
        Move::Step(Some(true)),
        Move::Pos(65),
        Move::Rank(2),
        Move::Next(None),
        Move::Pos(128),
    ];
    holds!(rt; moves(rt.alloc(), 128, &[63, 64], steps.as_slice())?);
    Ok(())
}

#[test]
fn cursor_at_the_end_of_a_word(rt: HostRuntime) -> Result<(), Fail> {
    let steps = [
        Move::Next(Some(0)),
        Move::Next(None),
        Move::Pos(1),
        Move::Step(Some(false)),
        Move::Step(None),
    ];
    holds!(rt; moves(rt.alloc(), 2, &[0], steps.as_slice())?);
    Ok(())
}

#[test]
fn cursor_seeks_ranks(rt: HostRuntime) -> Result<(), Fail> {
    let steps = [
        Move::ToRank(0, Some(1)),
        Move::ToRank(2, Some(13)),
        Move::ToRank(4, Some(50)),
        Move::Next(None),
        Move::Pos(64),
    ];
    holds!(rt; moves(rt.alloc(), 64, &[1, 5, 13, 30, 50], steps.as_slice())?);
    Ok(())
}

#[test]
fn cursor_in_any_order(rt: HostRuntime) -> Result<(), Fail> {
    let steps = [
        Move::ToPos(63, true),
        Move::Rank(0),
        Move::Step(Some(true)),
        Move::ToRank(1, Some(64)),
        Move::Next(Some(129)),
        Move::Pos(130),
        Move::Rank(3),
        Move::Step(None),
        Move::Next(None),
        Move::Pos(130),
        Move::ToRank(3, None),
        Move::ToPos(130, false),
    ];
    holds!(rt; moves(rt.alloc(), 130, &[63, 64, 129], steps.as_slice())?);
    Ok(())
}

#[test]
fn cursor_seeks_past_the_end(rt: HostRuntime) -> Result<(), Fail> {
    let mut trues = Vec::new(rt.alloc());
    for i in 0..100usize {
        trues.push(i)?;
    }
    let steps = [
        Move::ToPos(1000, false),
        Move::Pos(100),
        Move::Rank(100),
        Move::Step(None),
    ];
    holds!(rt; moves(rt.alloc(), 100, trues.as_slice(), steps.as_slice())?);
    Ok(())
}
