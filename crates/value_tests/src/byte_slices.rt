// Numbers of every width, and their bytes.
ghost use Rattle.std.specs.Prelude.{◌≡◌, ◌<◌, ◌^◌, length};

use columnar_base::element::{Element, Primitive};
use columnar_core::byte_slice::sliced::Sliced;
use std::alloc::Global;
use std::num::Wrapping;
use std::test::Fail;
use test_support::{equal, holds};

// Tests whether the number is stored as these bytes, read from them, and written with this alignment.
fn is_kept<T: Primitive + Sliced>(alloc: Global, items: &[T], bytes: &[u8], align: u64) -> bool
    requires one { length items.now ≡ 1 }
    requires whole { length bytes.now ≡ T.size }
    requires short { T.size < 2 ^ 63 }
{
    let slice = T::byte_slice(items);
    let mut out: Vec<u8> = Vec::new(alloc);
    if slice.write(&mut out).is_err() {
        return false;
    }
    out.as_slice() == bytes
        && slice.len() == bytes.len()
        && slice.align() == align
        && T::align() == align
        && T::size() == bytes.len()
        && T::from_le_bytes(bytes).same(&items[0])
}

#[test]
fn unsigned_numbers_are_kept(rt: HostRuntime) -> Result<(), Fail> {
    let alloc = rt.alloc();
    holds!(rt; is_kept(alloc, &[7u8], &[7], 1));
    holds!(rt; is_kept(alloc, &[258u16], &[2, 1], 2));
    holds!(rt; is_kept(alloc, &[16909060u32], &[4, 3, 2, 1], 4));
    holds!(rt;
        is_kept(
            alloc,
            &[u64::MAX - 1],
            &[254, 255, 255, 255, 255, 255, 255, 255],
            8
        )
    );
    holds!(rt; is_kept(alloc, &[<u32 as Primitive>::MAX], &[255, 255, 255, 255], 4));
    holds!(rt; is_kept(alloc, &[<u16 as Primitive>::MIN], &[0, 0], 2));
    Ok(())
}

#[test]
fn signed_numbers_are_kept_in_twos_complement(rt: HostRuntime) -> Result<(), Fail> {
    let alloc = rt.alloc();
    holds!(rt; is_kept(alloc, &[-1i8], &[255], 1));
    holds!(rt; is_kept(alloc, &[-2i16], &[254, 255], 2));
    holds!(rt; is_kept(alloc, &[5i32], &[5, 0, 0, 0], 4));
    holds!(rt;
        is_kept(
            alloc,
            &[<i64 as Primitive>::MIN],
            &[0, 0, 0, 0, 0, 0, 0, 128],
            8
        )
    );
    holds!(rt; is_kept(alloc, &[<i16 as Primitive>::MAX], &[255, 127], 2));
    Ok(())
}

#[test]
fn wrapping_numbers_are_kept_as_the_number_inside(rt: HostRuntime) -> Result<(), Fail> {
    let alloc = rt.alloc();
    holds!(rt; is_kept(alloc, &[Wrapping(200u8)], &[200], 1));
    holds!(rt; is_kept(alloc, &[Wrapping(258u16)], &[2, 1], 2));
    holds!(rt; is_kept(alloc, &[Wrapping(258u32)], &[2, 1, 0, 0], 4));
    holds!(rt; is_kept(alloc, &[Wrapping(1u64)], &[1, 0, 0, 0, 0, 0, 0, 0], 8));
    holds!(rt; is_kept(alloc, &[Wrapping(-1i8)], &[255], 1));
    holds!(rt; is_kept(alloc, &[Wrapping(-256i16)], &[0, 255], 2));
    holds!(rt; is_kept(alloc, &[Wrapping(-1i32)], &[255, 255, 255, 255], 4));
    holds!(rt;
        is_kept(
            alloc,
            &[<Wrapping<i64> as Primitive>::MIN],
            &[0, 0, 0, 0, 0, 0, 0, 128],
            8
        )
    );
    Ok(())
}

#[test]
fn words_are_filled_with_zeros(rt: HostRuntime) -> Result<(), Fail> {
    let items = [1u16, 2, 3, 4, 5];
    let slice = <u16 as Sliced>::byte_slice(&items);
    equal!(rt; slice.len(), 10);
    equal!(rt; slice.word(0), 1125912791875585);
    equal!(rt; slice.word(1), 5);
    let mut block = [7u64; 2];
    slice.read_words(0, &mut block);
    equal!(rt; block, [1125912791875585, 5]);
    let bytes = [1u8, 2, 3];
    let slice = <u8 as Sliced>::byte_slice(&bytes);
    equal!(rt; slice.align(), 1);
    equal!(rt; slice.word(0), 197121);
    Ok(())
}

#[test]
fn arrays_stand_one_after_the_other(rt: HostRuntime) -> Result<(), Fail> {
    let items = [[1u16, 2, 3], [4, 5, 6]];
    let slice = <[u16; 3] as Sliced>::byte_slice(&items);
    equal!(rt; slice.align(), 2);
    equal!(rt; slice.len(), 12);
    equal!(rt; slice.word(0), 1125912791875585);
    equal!(rt; slice.word(1), 393221);
    equal!(rt; <[u16; 3] as Element>::size(), 6);
    equal!(rt;
        <[u16; 3] as Element>::from_le_bytes(&[4, 0, 5, 0, 6, 0]),
        [4, 5, 6]
    );
    holds!(rt; items[0].same(&[1, 2, 3]));
    holds!(rt; !items[0].same(&[1, 2, 4]));
    Ok(())
}

// Each family of numbers makes arrays that can be written.
#[test]
fn arrays_of_each_number_go_out(rt: HostRuntime) -> Result<(), Fail> {
    equal!(rt;
        <[u8; 3] as Sliced>::byte_slice(&[[1, 2, 3]]).word(0),
        197121
    );
    equal!(rt; <[u32; 1] as Sliced>::byte_slice(&[[7]]).word(0), 7);
    equal!(rt; <[u64; 1] as Sliced>::byte_slice(&[[7]]).word(0), 7);
    equal!(rt; <[i8; 2] as Sliced>::byte_slice(&[[1, -1]]).word(0), 65281);
    equal!(rt; <[i16; 1] as Sliced>::byte_slice(&[[-1]]).word(0), 65535);
    equal!(rt; <[i32; 1] as Sliced>::byte_slice(&[[7]]).word(0), 7);
    equal!(rt; <[i64; 1] as Sliced>::byte_slice(&[[7]]).word(0), 7);
    Ok(())
}

#[test]
fn arrays_of_wrapping_numbers_go_out(rt: HostRuntime) -> Result<(), Fail> {
    equal!(rt;
        <[Wrapping<u8>; 1] as Sliced>::byte_slice(&[[Wrapping(7)]]).word(0),
        7
    );
    equal!(rt;
        <[Wrapping<u16>; 1] as Sliced>::byte_slice(&[[Wrapping(7)]]).word(0),
        7
    );
    equal!(rt;
        <[Wrapping<u32>; 1] as Sliced>::byte_slice(&[[Wrapping(7)]]).word(0),
        7
    );
    equal!(rt;
        <[Wrapping<u64>; 1] as Sliced>::byte_slice(&[[Wrapping(7)]]).word(0),
        7
    );
    equal!(rt;
        <[Wrapping<i8>; 1] as Sliced>::byte_slice(&[[Wrapping(7)]]).word(0),
        7
    );
    equal!(rt;
        <[Wrapping<i16>; 1] as Sliced>::byte_slice(&[[Wrapping(7)]]).word(0),
        7
    );
    equal!(rt;
        <[Wrapping<i32>; 1] as Sliced>::byte_slice(&[[Wrapping(7)]]).word(0),
        7
    );
    equal!(rt;
        <[Wrapping<i64>; 1] as Sliced>::byte_slice(&[[Wrapping(7)]]).word(0),
        7
    );
    Ok(())
}
