//! The items that are pushed, and the places that are read.
ghost use Rattle.std.specs.Prelude.{◌<◌};

use crate::clock::Random;
use columnar_variants::cases::{Last, Nth};
use std::alloc::Global;

pub fn rows(alloc: Global, count: usize, random: &mut Random) -> Option<Vec<(u64, Option<u64>)>> {
    let mut rows = Vec::new(alloc);
    rows.reserve(count).ok()?;
    for _row in 0..count {
        let word = random.next();
        let second = if word & 4 == 0 { Some(word >> 3) } else { None };
        rows.push((word, second)).ok()?;
    }
    Some(rows)
}

pub fn bits(alloc: Global, count: usize, random: &mut Random) -> Option<Vec<bool>> {
    let mut bits = Vec::new(alloc);
    bits.reserve(count).ok()?;
    for _bit in 0..count {
        bits.push(random.next() % 3 == 0).ok()?;
    }
    Some(bits)
}

pub fn places(alloc: Global, count: usize, end: u64, random: &mut Random) -> Option<Vec<usize>>
    requires { 0 < end }
{
    let mut places = Vec::new(alloc);
    places.reserve(count).ok()?;
    for _place in 0..count {
        places.push((random.next() % end) as usize).ok()?;
    }
    Some(places)
}

pub fn words_below(alloc: Global, count: usize, end: u64, random: &mut Random) -> Option<Vec<u64>>
    requires { 0 < end }
{
    let mut words = Vec::new(alloc);
    words.reserve(count).ok()?;
    for _word in 0..count {
        words.push(random.next() % end).ok()?;
    }
    Some(words)
}

pub fn words(alloc: Global, count: usize, random: &mut Random) -> Option<Vec<u64>> {
    let mut words = Vec::new(alloc);
    words.reserve(count).ok()?;
    for _word in 0..count {
        words.push(random.next()).ok()?;
    }
    Some(words)
}

pub fn lists(
    alloc: Global,
    count: usize,
    end: u64,
    random: &mut Random,
) -> Option<Vec<(usize, usize)>>
    requires { (0 < end) × (end < 1000000000) }
{
    let mut lists = Vec::new(alloc);
    lists.reserve(count).ok()?;
    for _list in 0..count {
        let word = random.next();
        let lower = (word >> 8) % end;
        lists
            .push((lower as usize, (lower + word % 8) as usize))
            .ok()?;
    }
    Some(lists)
}

fn word_of_letters(alloc: Global, seed: u64) -> Option<String> {
    let mut text = String::new(alloc);
    for letter in 0..(seed % 17) as u32 {
        text.push(char::from(97 + ((seed >> (letter * 3)) % 26) as u8))
            .ok()?;
    }
    Some(text)
}

pub fn records(
    alloc: Global,
    count: usize,
    random: &mut Random,
) -> Option<Vec<(u64, String, Option<u64>)>> {
    let mut records = Vec::new(alloc);
    records.reserve(count).ok()?;
    for _record in 0..count {
        let word = random.next();
        let third = if word & 4 == 0 { Some(word >> 3) } else { None };
        records
            .push((word, word_of_letters(alloc, word)?, third))
            .ok()?;
    }
    Some(records)
}

pub fn texts<'a>(alloc: Global, records: &'a [(u64, String, Option<u64>)]) -> Option<Vec<&'a str>> {
    let mut texts = Vec::new(alloc);
    texts.reserve(records.len()).ok()?;
    for record in records {
        texts.push(record.1.as_str()).ok()?;
    }
    Some(texts)
}

/// Makes results, of which three in four are Ok.
pub fn results(alloc: Global, count: usize, random: &mut Random) -> Option<Vec<Result<u64, u32>>> {
    let mut results = Vec::new(alloc);
    results.reserve(count).ok()?;
    for _result in 0..count {
        let word = random.next();
        let result = if word & 3 == 0 {
            Err((word & 0xFFFF_FFFF) as u32)
        } else {
            Ok(word)
        };
        results.push(result).ok()?;
    }
    Some(results)
}

/// A value of one of three variants.
pub type Kind = Nth<u64, Nth<u32, Last<u32>>>;

/// Makes values of each variant, equally many of each on average.
pub fn kinds(alloc: Global, count: usize, random: &mut Random) -> Option<Vec<Kind>> {
    let mut kinds = Vec::new(alloc);
    kinds.reserve(count).ok()?;
    for _kind in 0..count {
        let word = random.next();
        let kind = match word % 3 {
            0 => Nth::This(word),
            1 => Nth::Next(Nth::This((word >> 32) as u32)),
            _ => Nth::Next(Nth::Next(Last((word >> 32) as u32))),
        };
        kinds.push(kind).ok()?;
    }
    Some(kinds)
}

/// Makes variants 0, 1 and 2.
pub fn variants(alloc: Global, count: usize, random: &mut Random) -> Option<Vec<u8>> {
    let mut variants = Vec::new(alloc);
    variants.reserve(count).ok()?;
    for _variant in 0..count {
        variants.push((random.next() % 3) as u8).ok()?;
    }
    Some(variants)
}

/// Makes runs of equal words, of eight words on average.
pub fn runs(alloc: Global, count: usize, random: &mut Random) -> Option<Vec<u64>> {
    let mut runs = Vec::new(alloc);
    runs.reserve(count).ok()?;
    let mut word = 0;
    for _word in 0..count {
        if random.next() % 8 == 0 {
            word = random.next();
        }
        runs.push(word).ok()?;
    }
    Some(runs)
}
