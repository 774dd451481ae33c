//! Columns of truth values, by worked rows.
ghost use Rattle.std.specs.Prelude.{◌≡◌, ◌<◌, length, IfOk};
ghost use Rattle.columnar_core.specs.Format.{IsSound};
ghost use Rattle.columnar_bits.specs.BoolColumns.{bools_format, owned_content, owned_bits};

use columnar_bits::bools::Bools;
use columnar_core::bytes::Check;
use columnar_core::container::{Borrow, Storage, Truncate};
use columnar_core::fault::StoreFault;
use columnar_core::traits::{Index, Len};
use columnar_core::view::View;
use std::alloc::Global;
use std::test::Fail;
use test_support::{equal, holds};

type Held = Bools<Vec<u64>, [u64; 2]>;

// Creates n bits; bit i is set if i is a multiple of `step`.
fn column(alloc: Global, n: usize, step: usize) -> Result<Held, Fail>
    requires { 0 < step }
    ensures sound { IfOk result (λ c. IsSound bools_format (owned_content c)) }
    ensures len { IfOk result (λ c. length (owned_bits c) ≡ n) }
{
    let mut column = <Held as Storage>::empty(alloc);
    for i in 0..n {
        if column.push_bit(i % step == 0).is_err() {
            return Err(Fail::from("refused"));
        }
    }
    Ok(column)
}

#[test]
fn sixty_four_trues_fill_a_word(rt: HostRuntime) -> Result<(), Fail> {
    let column = column(rt.alloc(), 64, 1)?;
    equal!(rt; column.values.as_slice(), [u64::MAX].as_slice());
    equal!(rt; column.tail, [0, 0]);
    Ok(())
}

#[test]
fn a_range_is_copied_a_word_at_a_time(rt: HostRuntime) -> Result<(), Fail> {
    let mut bits = column(rt.alloc(), 60, 1)?;
    let evens = column(rt.alloc(), 100, 2)?;
    if bits.extend_bits_from(&evens, 3..73).is_err() {
        return Err(Fail::from("refused"));
    }
    holds!(rt;
        bits.values.as_slice() == [0xAFFF_FFFF_FFFF_FFFF, 0xAAAA_AAAA_AAAA_AAAA].as_slice()
    );
    equal!(rt; bits.tail, [2, 2]);
    equal!(rt; bits.len(), 130);
    Ok(())
}

#[test]
fn cuts_clear_the_bits_after(rt: HostRuntime) -> Result<(), Fail> {
    let mut bits = column(rt.alloc(), 100, 1)?;
    bits.truncate(70);
    equal!(rt; bits.values.as_slice(), [u64::MAX].as_slice());
    equal!(rt; bits.tail, [63, 6]);
    Ok(())
}

#[test]
fn views_read_the_same_bits(rt: HostRuntime) -> Result<(), Fail> {
    let bits = column(rt.alloc(), 70, 3)?;
    equal!(rt; bits.get(66), true);
    equal!(rt; bits.get(67), false);
    equal!(rt; bits.bits_at(62, 5), 18);
    equal!(rt; bits.borrow().get(69), true);
    Ok(())
}

#[test]
fn dirty_tails_are_refused(rt: HostRuntime) -> Result<(), Fail> {
    for (tail, wanted) in [
        ([5, 2].as_slice(), Err(StoreFault::TailBits(0))),
        ([0, 64].as_slice(), Err(StoreFault::TailBits(0))),
        ([1, 2].as_slice(), Ok(())),
        ([].as_slice(), Err(StoreFault::HeadSize(1))),
    ] {
        let view = Bools {
            values: View::from_slice(&[]),
            tail: View::from_slice(tail),
        };
        equal!(rt; view.check(), wanted);
    }
    let bytes = [0; 12];
    holds!(rt;
        Bools {
            values: View::from_le_bytes(&bytes),
            tail: View::from_slice(&[1, 2])
        }
        .check()
            == Err(StoreFault::ElementSize(0))
    );
    Ok(())
}
