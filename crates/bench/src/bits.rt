//! Bits and counts.
ghost use Rattle.columnar_sums.specs.RankColumns.{IsRanked};

use crate::clock::Random;
use crate::times::Times;
use crate::{input, work};
use columnar_base::view::View;
use columnar_bits::bools::Bools;
use columnar_bytes::stash::Stash;
use columnar_core::words::Words;
use columnar_sums::rank_select::RankSelect;
use std::io::Write;
use std::rt::Clock;

type Bits = RankSelect<Vec<u64>, Vec<u64>, [u64; 2]>;

type Plain = Bools<Vec<u64>, [u64; 2]>;

type Viewed<'a> = RankSelect<View<'a, u64>, View<'a, u64>, View<'a, u64>>;

const M: usize = 10_000_000;

const Q: usize = 1_000_000;

pub fn measure<R: Clock, O: Write>(times: &mut Times<'_, R, O>) -> Option<()> {
    let mut random = Random::new(9);
    let bits = input::bits(times.alloc, M, &mut random)?;
    plain(times, bits.as_slice())?;
    let column = times.values::<bool, Bits>("push_bits", bits.as_slice())?;
    let stash = Stash::<Bits, Vec<u8>>::Typed(column);
    let view = stash.borrow();
    let ones = times.sum("get_bits", &view)?;
    queries(times, &view, ones, random)?;
    walks(times, &view, ones as usize)?;
    times.copy::<Viewed<'_>, Bits>("copy_bits_aligned", view, 0, M)?;
    times.copy_after::<Viewed<'_>, Bits>("copy_bits_shifted", view, 3, 7, M - 1)
}

fn plain<R: Clock, O: Write>(times: &mut Times<'_, R, O>, bits: &[bool]) -> Option<()> {
    let stash = Stash::<Plain, Vec<u8>>::Typed(times.values::<bool, Plain>("push_bools", bits)?);
    times.sum("get_bools", &stash.borrow())?;
    Some(())
}

fn queries<R: Clock, O: Write, CC: Words, VC: Words, WC: Words>(
    times: &mut Times<'_, R, O>,
    bits: &RankSelect<CC, VC, WC>,
    ones: u64,
    start: Random,
) -> Option<()>
    requires { IsRanked CC.bytes VC.bytes WC.bytes bits.now }
{
    if ones == 0 {
        return None;
    }
    let mut random = start;
    let places = input::places(times.alloc, Q, 10_000_000, &mut random)?;
    let ranks = input::words_below(times.alloc, Q, ones, &mut random)?;
    let start = times.start();
    let sum = work::rank_each(bits, places.as_slice());
    times.summed("rank_random", start, Q, sum)?;
    let start = times.start();
    let sum = work::rank_all(bits);
    times.summed("rank_sequential", start, M, sum)?;
    let start = times.start();
    let sum = work::select_each(bits, ranks.as_slice());
    times.summed("select_random", start, Q, sum)?;
    Some(())
}

fn walks<R: Clock, O: Write, CC: Words, VC: Words, WC: Words>(
    times: &mut Times<'_, R, O>,
    bits: &RankSelect<CC, VC, WC>,
    ones: usize,
) -> Option<()>
    requires { IsRanked CC.bytes VC.bytes WC.bytes bits.now }
{
    let start = times.start();
    let sum = work::next_ones(bits, ones);
    times.summed("cursor_next_one", start, ones, sum)?;
    let start = times.start();
    let sum = work::steps(bits);
    times.summed("cursor_step", start, M, sum)?;
    Some(())
}
