// Columns of strings: pushes, reads, copies, and worked stores.
ghost use Rattle.std.specs.Prelude.{IsTrue};
ghost use Rattle.columnar_base.specs.Format.{IsSound, representable};

use crate::rows::pushed;
use columnar_base::fault::{GrowError, OwnError, StoreFault};
use columnar_bytes::indexed::{encode, validate};
use columnar_bytes::stash::Stash;
use columnar_core::byte_slice::ByteSlice;
use columnar_core::container::{Borrow, ContainerBytes, Storage, Truncate};
use columnar_core::offsets::{Offsets, PushAfter};
use columnar_core::traits::{Column, Index, Item, Len, Push, PushRef};
use columnar_strings::string::{Quoted, Shown, Strings};
use std::alloc::Global;
use std::boxed::BoxedStr;
use std::fmt::{self, Display, Formatter, Write};
use std::test::Fail;
use test_support::columns::{copied, row_at, takes, takes_ref};
use test_support::{equal, holds};

type Texts = Strings<Vec<u64>, Vec<u8>>;

type Rows = (Vec<u64>, Texts);

// The rows (0, "hello") and (1, "world"), written.
static HELLO: [u8; 80] = [
    32, 0, 0, 0, 0, 0, 0, 0, 48, 0, 0, 0, 0, 0, 0, 0, 64, 0, 0, 0, 0, 0, 0, 0, 74, 0, 0, 0, 0, 0,
    0, 0, 0, 0, 0, 0, 0, 0, 0, 0, 1, 0, 0, 0, 0, 0, 0, 0, 5, 0, 0, 0, 0, 0, 0, 0, 10, 0, 0, 0, 0,
    0, 0, 0, 0x68, 0x65, 0x6c, 0x6c, 0x6f, 0x77, 0x6f, 0x72, 0x6c, 0x64, 0, 0, 0, 0, 0, 0,
];

// Tests whether the last string, read through a reference, has these bytes.
fn ends_with<'a>(column: &'a Texts, bytes: &[u8]) -> bool
    requires { IsSound ⟦<Texts as Column>⟧.format (⟦<Texts as Column>⟧.content column.now) }
{
    match Index::last(&column) {
        Some(row) => row == bytes,
        None => false,
    }
}

#[test]
fn three_strings_are_seven_words(rt: HostRuntime) -> Result<(), Fail> {
    let texts: Texts = pushed(rt.alloc(), ["ab", "", "c"].as_slice())?;
    let mut words = Vec::new(rt.alloc());
    holds!(rt; encode(&mut words, &texts.borrow()).is_ok());
    equal!(rt; words.as_slice(), [24, 48, 51, 2, 2, 3, 6513249].as_slice());
    Ok(())
}

#[test]
fn bounds_end_at_the_bytes(rt: HostRuntime) -> Result<(), Fail> {
    for (words, judged) in [
        (
            [24, 32, 34, 3, 25185].as_slice(),
            Err(StoreFault::Bounds(0)),
        ),
        ([24, 32, 34, 2, 25185].as_slice(), Ok(())),
    ] {
        let mut bytes = Vec::new(rt.alloc());
        holds!(rt; ByteSlice::of_words(words).write(&mut bytes).is_ok());
        equal!(rt; validate::<Texts>(bytes.as_slice()), judged);
    }
    Ok(())
}

// Pushes texts and bytes by value, as references and by reference; returns which succeed.
fn takes_each<BC: Offsets + PushAfter, VC: Truncate + PushRef<u8>>(
    texts: &mut Strings<BC, VC>,
    bytes: &[u8],
    boxed: &BoxedStr,
    owned: String,
) -> [bool; 9]
    requires { IsSound ⟦<Strings<BC, VC> as Column>⟧.format (⟦<Strings<BC, VC> as Column>⟧.content texts.old) }
    ensures { IsSound ⟦<Strings<BC, VC> as Column>⟧.format (⟦<Strings<BC, VC> as Column>⟧.content texts.new) }
{
    [
        takes(texts, "ab"),
        takes(texts, bytes),
        takes(texts, &owned),
        takes(texts, boxed),
        takes_ref(texts, &"g"),
        takes_ref(texts, &bytes),
        takes_ref(texts, &owned),
        takes_ref(texts, boxed),
        takes(texts, owned),
    ]
}

#[test]
fn strings_are_pushed_from_texts_and_bytes(rt: HostRuntime) -> Result<(), Fail> {
    let owned = String::from_str(rt.alloc(), "de")?;
    let boxed = BoxedStr::from_str(rt.alloc(), "f")?;
    let mut texts = Texts::empty(rt.alloc());
    let taken = takes_each(&mut texts, b"\xff".as_slice(), &boxed, owned);
    equal!(rt; taken, [true; 9]);
    equal!(rt;
        texts.bounds.as_slice(),
        [2, 3, 5, 6, 7, 8, 10, 11, 13].as_slice()
    );
    equal!(rt; texts.values.as_slice(), b"ab\xffdefg\xffdefde".as_slice());
    Ok(())
}

#[test]
fn strings_are_read_where_they_stand(rt: HostRuntime) -> Result<(), Fail> {
    let texts: Texts = pushed(
        rt.alloc(),
        [b"ab".as_slice(), b"\xff".as_slice()].as_slice(),
    )?;
    equal!(rt; row_at(&texts.borrow(), 0), Some(b"ab".as_slice()));
    holds!(rt; ends_with(&texts, b"\xff".as_slice()));
    equal!(rt; row_at(&texts.borrow(), 2), None);
    let view = texts.borrow();
    if view.len() == 2 {
        equal!(rt; view.get_str(0), Ok("ab"));
        equal!(rt; view.get_str(1), Err(OwnError::Utf8));
    }
    Ok(())
}

#[test]
fn a_copy_moves_the_bounds(rt: HostRuntime) -> Result<(), Fail> {
    let source: Texts = pushed(rt.alloc(), ["ab", "c", "de"].as_slice())?;
    let mut texts: Texts = pushed(rt.alloc(), ["x"].as_slice())?;
    holds!(rt; copied(&mut texts, source.borrow(), 1, 3));
    equal!(rt; texts.bounds.as_slice(), [1, 2, 4].as_slice());
    equal!(rt; texts.values.as_slice(), b"xcde".as_slice());
    holds!(rt; texts.clone()? == texts);
    Ok(())
}

// Formats a prefix of a text, and then fails.
struct Broken;

impl Display for Broken {
    fn fmt<W: Write>(&self, f: &mut Formatter<W>) -> fmt::Result {
        f.write_str("beg")?;
        Err(fmt::Error)
    }
}

#[test]
fn a_value_that_fails_leaves_nothing(rt: HostRuntime) -> Result<(), Fail> {
    let mut texts = Texts::empty(rt.alloc());
    equal!(rt; texts.push_display(&42u64), Ok(()));
    equal!(rt; texts.push_display(&Broken), Err(GrowError::Format));
    equal!(rt; texts.push_display(&"ab"), Ok(()));
    equal!(rt; texts.bounds.as_slice(), [2, 4].as_slice());
    equal!(rt; texts.values.as_slice(), b"42ab".as_slice());
    Ok(())
}

#[test]
fn shown_values_are_pushed(rt: HostRuntime) -> Result<(), Fail> {
    let mut texts = Texts::empty(rt.alloc());
    holds!(rt; takes(&mut texts, Shown(&42u64)));
    holds!(rt; takes_ref(&mut texts, &Shown(&"ab")));
    equal!(rt; texts.bounds.as_slice(), [2, 4].as_slice());
    equal!(rt; texts.values.as_slice(), b"42ab".as_slice());
    Ok(())
}

#[test]
fn strings_are_printed_as_text(rt: HostRuntime) -> Result<(), Fail> {
    let text = format!(in rt.alloc(); "{} {:?}", Quoted(b"c\"d"), (1u8, Quoted(b"c\xff")))?;
    equal!(rt; text.as_str(), "\"c\\\"d\" (1, b\"c\\xff\")");
    let text = format!(in rt.alloc(); "{:?}", Quoted("\u{e9}\n".as_bytes()))?;
    equal!(rt; text.as_str(), "\"\u{e9}\\n\"");
    Ok(())
}

// Returns what a stash writes after two rows are pushed by reference.
fn written<T: Item, C: ContainerBytes + Storage + PushRef<T>>(
    alloc: Global,
    first: &T,
    second: &T,
) -> Result<Vec<u8>, Fail>
    requires representable { IsTrue (representable C.format) }
    requires first_valid { T.valid first.now }
    requires second_valid { T.valid second.now }
{
    let mut stash = Stash::<C, Vec<u8>>::empty(alloc);
    stash.push_ref(first)?;
    stash.push_ref(second)?;
    let mut bytes = Vec::new(alloc);
    if stash.write_bytes(&mut bytes).is_err() {
        return Err(Fail::from("not written"));
    }
    Ok(bytes)
}

#[test]
fn rows_with_a_string_are_eighty_bytes(rt: HostRuntime) -> Result<(), Fail> {
    let hello = String::from_str(rt.alloc(), "hello")?;
    let world = String::from_str(rt.alloc(), "world")?;
    let bytes = written::<_, Rows>(rt.alloc(), &(0u64, hello), &(1, world))?;
    equal!(rt; bytes.as_slice(), HELLO.as_slice());
    Ok(())
}
