// Worked stores, and writers that fail.
ghost use Rattle.std.specs.Prelude.{◌≡◌, IsTrue, refl};
ghost use Rattle.columnar_core.specs.Bytes.{le_bytes};
ghost use Rattle.columnar_core.specs.Format.{representable, slice, both};

use columnar_bytes::indexed::laws::holds_bytes;
use columnar_bytes::indexed::{
    DecodedStore, decode, decode_index, encode, length_in_bytes, length_in_words,
    validate_structure, write,
};
use columnar_core::byte_slice::ByteSlice;
use columnar_core::bytes::{AsBytes, ByteSlices, Stored};
use columnar_core::fault::{GrowError, StoreFault, WriteFault};
use columnar_core::tally::Tally;
use columnar_core::traits::Column;
use columnar_core::view::View;
use std::alloc::Global;
use std::io::{Error, ErrorKind};
use std::test::Fail;
use test_support::stores::{bytes_of, front};
use test_support::writers::Slow;
use test_support::{equal, holds};

// A column of bytes and one of words: two slices.
#[derive(Clone, Copy)]
struct BytesAndWords<'a> {
    bytes: &'a [u8],
    words: &'a [u64],
}

// As a column, it is the pair of a column of bytes and one of words.
type Both = (Vec<u8>, Vec<u64>);

impl<'v> Column for BytesAndWords<'v> {
    ghost format = { ⟦<Both as Column>⟧.format };

    ghost content = { λ s. both (slice s.bytes.now) (slice (le_bytes s.words.now)) };

    ghost room = { λ c rs. ⊥ };
}

impl<'v> Stored for BytesAndWords<'v> {
    ghost use Rattle.columnar_core.specs.Elements.{words_format, word_row_of, elements_format};
    ghost use Rattle.columnar_core.specs.ElementLaws.{elements_storable};
    ghost use Rattle.columnar_base.specs.TupleLaws.{pair_storable};
    ghost use Rattle.columnar_base.specs.Numbers.{unsigned_row_of};
    ghost use Rattle.std.specs.Int.{w8};
    ghost use Rattle.std.specs.Prelude.{[], ◌∷◌, ◌++◌, ◌+◌, ◌*◌, ◌≤◌, length, drop, OnOk, OnErr, IfErr};
    ghost use Rattle.columnar_core.specs.Format.{Fits, bytes_held, first, moved};
    ghost use Rattle.columnar_core.specs.Faults.{verdict};
    ghost use Rattle.columnar_core.specs.Store.{slices_in};

    ghost storable = { pair_storable (elements_format 1 1 (unsigned_row_of w8)) words_format (elements_storable 1 1 (unsigned_row_of w8)) (elements_storable 8 8 word_row_of) };

    ghost counted = { λ s. refl };

    fn slice_count() -> usize
        ensures { result ≡ 2 }
    {
        2
    }

    fn element_sizes(sizes: &mut Vec<usize>) -> Result<(), GrowError>
        ensures ok { OnOk result (sizes.new.items ≡ sizes.old.items ++ 1 ∷ 8 ∷ []) }
        ensures err { OnErr result (sizes.new.items ≡ sizes.old.items) }
        ensures memory { IfErr result (λ e. e ≡ GrowError.Memory) }
    {
        match sizes.extend_from_slice(&[1, 8]) {
            Ok(()) => Ok(()),
            Err(_) => Err(GrowError::Memory),
        }
    }

    fn judge_tallied<L>(
        store: &DecodedStore<'_>,
        offset: usize,
        tally: &mut Tally<L>,
    ) -> Result<(), StoreFault>
        requires representable { IsTrue (representable ⟦<Both as Column>⟧.format) }
        requires room { offset + 2 ≤ length (slices_in store.now) }
        ensures exact { verdict result ≡ first (moved offset (⟦<Both as Column>⟧.format.broken (⟦<Both as Column>⟧.format.build (drop offset (slices_in store.now))))) }
        ensures turns { tally.new.turns ≤ tally.old.turns + ⟦<Both as Column>⟧.format.turns * bytes_held (⟦<Both as Column>⟧.format.build (drop offset (slices_in store.now))) }
    {
        Both::judge_tallied(store, offset, tally)
    }

    fn rows_in(store: &DecodedStore<'_>, offset: usize) -> usize
        requires representable { IsTrue (representable ⟦<Both as Column>⟧.format) }
        requires fits { Fits ⟦<Both as Column>⟧.format offset (slices_in store.now) }
        ensures { result ≡ length (⟦<Both as Column>⟧.format.rows (⟦<Both as Column>⟧.format.build (drop offset (slices_in store.now)))) }
    {
        Both::rows_in(store, offset)
    }
}

impl<'v> AsBytes<'v> for BytesAndWords<'v> {
    fn get_byte_slice(&self, index: usize) -> (u64, ByteSlice<'v>) {
        let slice = match index {
            0 => ByteSlice::of_bytes(self.bytes),
            _ => ByteSlice::of_words(self.words),
        };
        (slice.align(), slice)
    }
}

// Returns what `write` writes.
fn written<'a, S: AsBytes<'a>>(alloc: Global, item: &S) -> Result<Vec<u8>, WriteFault<Error>>
    requires { IsTrue (representable S.format) }
{
    let mut bytes = Vec::new(alloc);
    write(&mut bytes, item)?;
    Ok(bytes)
}

// Returns the bytes of the words that `encode` appends.
fn encoded<'a, S: AsBytes<'a>>(alloc: Global, item: &S) -> Result<Vec<u8>, Error>
    requires { IsTrue (representable S.format) }
{
    holds_bytes(item);
    let mut words = Vec::new(alloc);
    if encode(&mut words, item).is_err() {
        return Err(Error::from(ErrorKind::OutOfMemory));
    }
    bytes_of(alloc, &words)
}

// Tests words as a store of `expected` slices.
fn tested(alloc: Global, words: &[u64], expected: usize) -> Result<Result<(), StoreFault>, Error> {
    let bytes = bytes_of(alloc, words)?;
    Ok(validate_structure(&bytes, expected))
}

#[test]
fn encodes_the_worked_stores(rt: HostRuntime) -> Result<(), Fail> {
    let mut store = Vec::new(rt.alloc());
    encode(&mut store, &View::<u64>::from_slice(&[7]))?;
    equal!(rt; store.as_slice(), [16, 24, 7].as_slice());
    encode(
        &mut store,
        &BytesAndWords {
            bytes: &[1, 2, 3],
            words: &[7],
        },
    )?;
    equal!(rt;
        store.as_slice(),
        [16, 24, 7, 24, 27, 40, 197121, 7].as_slice()
    );
    equal!(rt; length_in_words(&View::<u64>::from_slice(&[7])), Some(3));
    equal!(rt; length_in_bytes(&View::<u64>::from_slice(&[7])), Some(24));

    let mut empty = Vec::new(rt.alloc());
    encode(&mut empty, &View::<u64>::from_slice(&[]))?;
    equal!(rt; empty.as_slice(), [16, 16].as_slice());
    Ok(())
}

#[test]
fn the_last_bytes_are_those_of_the_word(rt: HostRuntime) -> Result<(), Fail> {
    let item = View::<u64>::from_slice(&[7]);
    let bytes = encoded(rt.alloc(), &item)?;
    let want: [u8; 24] = [
        16, 0, 0, 0, 0, 0, 0, 0, 24, 0, 0, 0, 0, 0, 0, 0, 7, 0, 0, 0, 0, 0, 0, 0,
    ];
    equal!(rt; bytes.as_slice(), want.as_slice());
    equal!(rt; written(rt.alloc(), &item)?.as_slice(), want.as_slice());
    equal!(rt; validate_structure(&bytes, 1), Ok(()));
    Ok(())
}

#[test]
fn a_long_slice_is_written_whole(rt: HostRuntime) -> Result<(), Fail> {
    let mut items = Vec::new(rt.alloc());
    for i in 0..300u64 {
        items.push(i)?;
    }
    let item = View::<u64>::from_slice(&items);
    let bytes = written(rt.alloc(), &item)?;
    holds!(rt; bytes.len() == 2416);
    for i in 0..300 {
        equal!(rt; bytes[16 + 8 * i] as usize, i % 256);
        equal!(rt; bytes[17 + 8 * i] as usize, i / 256);
        equal!(rt; bytes[18 + 8 * i], 0);
    }
    equal!(rt; bytes.as_slice(), encoded(rt.alloc(), &item)?.as_slice());
    Ok(())
}

#[test]
fn names_the_first_broken_rule(rt: HostRuntime) -> Result<(), Fail> {
    for (words, expected, wanted) in [
        ([].as_slice(), 0, Err(StoreFault::Empty(0))),
        ([0].as_slice(), 0, Err(StoreFault::FirstOffset(0))),
        ([0, 0, 0].as_slice(), 2, Err(StoreFault::FirstOffset(0))),
        ([4].as_slice(), 0, Err(StoreFault::FirstOffset(0))),
        ([16].as_slice(), 1, Err(StoreFault::Table(0))),
        ([8].as_slice(), 0, Ok(())),
        ([8].as_slice(), usize::MAX, Err(StoreFault::SliceCount(0))),
        ([16, 32, 7].as_slice(), 1, Err(StoreFault::PastEnd(0))),
        ([16, 8, 7].as_slice(), 1, Err(StoreFault::Backwards(0))),
        ([16, 24, 7, 9].as_slice(), 1, Ok(())),
    ] {
        equal!(rt; tested(rt.alloc(), words, expected)?, wanted);
    }
    Ok(())
}

#[test]
fn a_store_that_is_cut_is_refused(rt: HostRuntime) -> Result<(), Fail> {
    let bytes = bytes_of(rt.alloc(), &[40, 40, 40, 56, 64, 1, 2, 7])?;
    let bytes = bytes.as_slice();
    equal!(rt; validate_structure(bytes, 4), Ok(()));
    equal!(rt;
        validate_structure(front(bytes, 56), 4),
        Err(StoreFault::PastEnd(3))
    );
    equal!(rt;
        validate_structure(front(bytes, 63), 4),
        Err(StoreFault::NotWords(0))
    );
    Ok(())
}

#[test]
fn reads_the_slices(rt: HostRuntime) -> Result<(), Fail> {
    let item = BytesAndWords {
        bytes: &[1, 2, 3],
        words: &[7],
    };
    let bytes = written(rt.alloc(), &item)?;
    let bytes = bytes.as_slice();
    equal!(rt; bytes.len(), 40);
    match validate_structure(bytes, 2) {
        Ok(()) => {
            let store = DecodedStore::new(bytes);
            equal!(rt; store.len(), 2);
            equal!(rt; store.get(0), [1, 2, 3].as_slice());
            equal!(rt; store.get(1), [7, 0, 0, 0, 0, 0, 0, 0].as_slice());
            equal!(rt; decode_index(bytes, 0), [1, 2, 3].as_slice());
            equal!(rt; decode(bytes).count(), 2);
        }
        Err(_) => holds!(rt; false),
    }
    Ok(())
}

#[test]
fn gives_the_slices_with_their_alignment(rt: HostRuntime) -> Result<(), Fail> {
    let item = BytesAndWords {
        bytes: &[1, 2, 3],
        words: &[7, 8],
    };
    let mut slices = ByteSlices::new(&item);
    equal!(rt; slices.size_hint(), (2, Some(2)));
    for want in [(1, 3), (8, 16)] {
        match slices.next() {
            Some((align, slice)) => {
                equal!(rt; align, want.0);
                equal!(rt; slice.align(), want.0);
                equal!(rt; slice.len(), want.1);
            }
            None => holds!(rt; false),
        }
    }
    holds!(rt; slices.next().is_none());
    Ok(())
}

// Returns the total number of bytes of a column's slices, saturating.
fn byte_total<'a, S: AsBytes<'a>>(item: &S) -> usize
    requires { IsTrue (representable S.format) }
{
    let mut total = 0usize;
    for (_, slice) in ByteSlices::new(item) {
        total = total.saturating_add(slice.len());
    }
    total
}

// Counts the slices of a column by iterating over them.
fn counted<'a, S: AsBytes<'a>>(item: &S) -> usize
    requires { IsTrue (representable S.format) }
    ensures { result ≡ S.format.count }
{
    ByteSlices::new(item).count()
}

#[test]
fn generic_code_goes_over_the_slices(rt: HostRuntime) -> Result<(), Fail> {
    let item = BytesAndWords {
        bytes: &[1, 2, 3],
        words: &[7, 8],
    };
    equal!(rt; byte_total(&item), 19);
    equal!(rt; counted(&item), 2);
    Ok(())
}

#[test]
fn writes_byte_by_byte(rt: HostRuntime) -> Result<(), Fail> {
    let item = View::<u64>::from_slice(&[7]);
    let mut slow = Slow {
        taken: Vec::new(rt.alloc()),
        limit: 100,
        kind: None,
    };
    write(&mut slow, &item)?;
    equal!(rt; slow.taken.len(), 24);
    equal!(rt;
        slow.taken.as_slice(),
        encoded(rt.alloc(), &item)?.as_slice()
    );
    Ok(())
}

#[test]
fn a_fault_ends_the_writing(rt: HostRuntime) -> Result<(), Fail> {
    let item = View::<u64>::from_slice(&[7]);
    for kind in [
        Some(ErrorKind::BrokenPipe),
        Some(ErrorKind::Interrupted),
        None,
    ] {
        let mut slow = Slow {
            taken: Vec::new(rt.alloc()),
            limit: 10,
            kind,
        };
        let want = kind.unwrap_or(ErrorKind::WriteZero);
        match write(&mut slow, &item) {
            Err(WriteFault::Writer(fault)) => equal!(rt; fault.kind(), want),
            _ => holds!(rt; false),
        }
        equal!(rt;
            slow.taken.as_slice(),
            [16, 0, 0, 0, 0, 0, 0, 0, 24, 0].as_slice()
        );
    }
    Ok(())
}
