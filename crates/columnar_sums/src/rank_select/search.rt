//! Rank and select over metered words and counts.
ghost use Rattle.std.specs.Prelude.{◌≡◌, ℕ, ◌+◌, ◌-◌, ◌*◌, ◌/◌, ◌%◌, ◌^◌, ◌<◌, ◌≤◌, length, slice_index, true, MatchOption, count_ones, cond};
ghost use Rattle.columnar_bits.specs.Bits.{bit as bit_of, bit_in};
ghost use Rattle.columnar_base.specs.Digits.{digits};
ghost use Rattle.columnar_sums.specs.Counting.{ones_below, CountWords, count_before, Adds};
ghost use Rattle.columnar_sums.specs.Spans.{IsSpan};

use columnar_core::metered::{MeteredCounts, MeteredWords};
use columnar_core::tally::Tally;

// Counts the set bits among the lowest `count` bits of the word.
#[tactic(auto, using(crate::specs::CountLaws::ones_of_low))]
pub(crate) fn ones_in(word: u64, count: u64) -> u64
    requires { count < 64 }
    ensures { result ≡ ones_below (bit_of word) count }
{
    (word & ((1 << count) - 1)).count_ones() as u64
}

// Returns the count before a chunk.
#[tactic(auto, using(crate::specs::CountLaws::count_before_none, crate::specs::CountLaws::count_before_some))]
fn ones_before<L>(counts: &MeteredCounts<'_, L>, chunk: usize, tally: &mut Tally<L>) -> u64
    requires { chunk ≤ length counts.now }
    ensures value { result ≡ count_before counts.now chunk }
    ensures counts { tally.new.counts ≤ tally.old.counts + 1 }
    ensures more { tally.old.counts ≤ tally.new.counts }
    ensures words { tally.new.words ≡ tally.old.words }
    ensures turns { tally.new.turns ≡ tally.old.turns }
{
    if chunk == 0 {
        0
    } else {
        counts.read(chunk - 1, tally)
    }
}

// Counts the set bits before word `block`, from the count before its chunk and the words since.
#[tactic(auto, using(crate::specs::CountLaws::ones_word_whole, crate::specs::CountLaws::ones_below_le, crate::specs::CountLaws::kept_more, crate::specs::CountLaws::count_before_is, crate::specs::CountLaws::length_words))]
fn ones_by_words<L>(
    counts: &MeteredCounts<'_, L>,
    words: &MeteredWords<'_, L>,
    block: usize,
    tally: &mut Tally<L>,
) -> usize
    requires within { block < length words.now }
    requires short { block < 2 ^ 58 }
    requires counted { block / 16 ≤ length counts.now }
    requires exact { CountWords words.now counts.now }
    ensures value { result ≡ ones_below (bit_in words.now) (64 * block) }
    ensures reads { Adds 1 (block % 16) tally.old tally.new }
    ensures turns { tally.new.turns ≤ tally.old.turns + block % 16 }
{
    let chunk = block / 16;
    let mut sum = ones_before(counts, chunk, tally) as usize;
    // All words before word `block` are whole, so no step has to test whether it reads the tail.
    let whole = block.min(words.len() - 1);
    for at in 16 * chunk..whole {
        tally.tick();
        sum += words.read_whole(at, tally).count_ones() as usize;
    }
    sum
}

// Does the same as `ones_by_words` if the eight words of the block's half chunk are whole. It starts from the nearest
// count and always reads all eight words, so no branch depends on the position.
#[tactic(auto, using(crate::specs::CountLaws::ones_word_whole, crate::specs::CountLaws::ones_below_le, crate::specs::CountLaws::kept_more, crate::specs::CountLaws::count_before_is, crate::specs::CountLaws::length_words))]
#[inline(always)]
fn ones_by_half<L>(
    counts: &MeteredCounts<'_, L>,
    words: &MeteredWords<'_, L>,
    block: usize,
    tally: &mut Tally<L>,
) -> usize
    requires whole { block - block % 8 + 8 < length words.now }
    requires short { block < 2 ^ 58 }
    requires counted { (block / 8 + 1) / 2 ≤ length counts.now }
    requires exact { CountWords words.now counts.now }
    ensures value { result ≡ ones_below (bit_in words.now) (64 * block) }
    ensures reads { Adds 1 8 tally.old tally.new }
    ensures turns { tally.new.turns ≤ tally.old.turns + 8 }
{
    let first = block - block % 8;
    let mut all = 0;
    let mut before = [0usize; 8];
    for i in 0..8 {
        tally.tick();
        before[i] = all;
        all += words.read_whole(first + i, tally).count_ones() as usize;
    }
    let half = block / 8;
    let counted = ones_before(counts, (half + 1) / 2, tally) as usize;
    counted - all * (half % 2) + before[block % 8]
}

// Counts the set bits among the first `index` bits, from the last count and the words since.
#[tactic(auto, using(crate::specs::CountLaws::ones_word, crate::specs::CountLaws::ones_below_le, crate::specs::CountLaws::kept_more, crate::specs::CountLaws::length_words))]
pub(crate) fn rank_in_words<L>(
    counts: &MeteredCounts<'_, L>,
    words: &MeteredWords<'_, L>,
    index: usize,
    tally: &mut Tally<L>,
) -> usize
    requires within { index / 64 < length words.now }
    requires counted { index / 1024 ≤ length counts.now }
    requires exact { CountWords words.now counts.now }
    ensures value { result ≡ ones_below (bit_in words.now) index }
    ensures reads { Adds 1 (index / 64 % 16 + 1) tally.old tally.new }
    ensures some_read { length tally.old.words < length tally.new.words }
    ensures turns { tally.new.turns ≤ tally.old.turns + index / 64 % 16 }
{
    let block = index / 64;
    let before = ones_by_words(counts, words, block, tally);
    before + ones_in(words.read(block, tally), (index % 64) as u64) as usize
}

// Does the same as `rank_in_words`, by half chunks if they are whole.
#[tactic(auto, using(crate::specs::CountLaws::ones_word, crate::specs::CountLaws::ones_below_le, crate::specs::CountLaws::kept_more, crate::specs::CountLaws::length_words))]
#[inline(always)]
pub(crate) fn rank_in<L>(
    counts: &MeteredCounts<'_, L>,
    words: &MeteredWords<'_, L>,
    index: usize,
    tally: &mut Tally<L>,
) -> usize
    requires within { index / 64 < length words.now }
    requires counted { index / 1024 ≤ length counts.now }
    requires complete { length words.now ≤ 16 * length counts.now + 16 }
    requires exact { CountWords words.now counts.now }
    ensures value { result ≡ ones_below (bit_in words.now) index }
    ensures reads { Adds 1 16 tally.old tally.new }
    ensures some_read { length tally.old.words < length tally.new.words }
    ensures turns { tally.new.turns ≤ tally.old.turns + 16 }
{
    let block = index / 64;
    let whole = words.len() - 1;
    let before = if block - block % 8 + 8 <= whole {
        ones_by_half(counts, words, block, tally)
    } else {
        ones_by_words(counts, words, block, tally)
    };
    before + ones_in(words.read(block, tally), (index % 64) as u64) as usize
}

// For each byte the positions of its set bits, four bits for each position, the lowest first.
static PLACES: [u32; 256] = [
    0, 0, 1, 0x10, 2, 0x20, 0x21, 0x210, 3, 0x30, 0x31, 0x310, 0x32, 0x320, 0x321, 0x3210, 4, 0x40,
    0x41, 0x410, 0x42, 0x420, 0x421, 0x4210, 0x43, 0x430, 0x431, 0x4310, 0x432, 0x4320, 0x4321,
    0x43210, 5, 0x50, 0x51, 0x510, 0x52, 0x520, 0x521, 0x5210, 0x53, 0x530, 0x531, 0x5310, 0x532,
    0x5320, 0x5321, 0x53210, 0x54, 0x540, 0x541, 0x5410, 0x542, 0x5420, 0x5421, 0x54210, 0x543,
    0x5430, 0x5431, 0x54310, 0x5432, 0x54320, 0x54321, 0x543210, 6, 0x60, 0x61, 0x610, 0x62, 0x620,
    0x621, 0x6210, 0x63, 0x630, 0x631, 0x6310, 0x632, 0x6320, 0x6321, 0x63210, 0x64, 0x640, 0x641,
    0x6410, 0x642, 0x6420, 0x6421, 0x64210, 0x643, 0x6430, 0x6431, 0x64310, 0x6432, 0x64320,
    0x64321, 0x643210, 0x65, 0x650, 0x651, 0x6510, 0x652, 0x6520, 0x6521, 0x65210, 0x653, 0x6530,
    0x6531, 0x65310, 0x6532, 0x65320, 0x65321, 0x653210, 0x654, 0x6540, 0x6541, 0x65410, 0x6542,
    0x65420, 0x65421, 0x654210, 0x6543, 0x65430, 0x65431, 0x654310, 0x65432, 0x654320, 0x654321,
    0x6543210, 7, 0x70, 0x71, 0x710, 0x72, 0x720, 0x721, 0x7210, 0x73, 0x730, 0x731, 0x7310, 0x732,
    0x7320, 0x7321, 0x73210, 0x74, 0x740, 0x741, 0x7410, 0x742, 0x7420, 0x7421, 0x74210, 0x743,
    0x7430, 0x7431, 0x74310, 0x7432, 0x74320, 0x74321, 0x743210, 0x75, 0x750, 0x751, 0x7510, 0x752,
    0x7520, 0x7521, 0x75210, 0x753, 0x7530, 0x7531, 0x75310, 0x7532, 0x75320, 0x75321, 0x753210,
    0x754, 0x7540, 0x7541, 0x75410, 0x7542, 0x75420, 0x75421, 0x754210, 0x7543, 0x75430, 0x75431,
    0x754310, 0x75432, 0x754320, 0x754321, 0x7543210, 0x76, 0x760, 0x761, 0x7610, 0x762, 0x7620,
    0x7621, 0x76210, 0x763, 0x7630, 0x7631, 0x76310, 0x7632, 0x76320, 0x76321, 0x763210, 0x764,
    0x7640, 0x7641, 0x76410, 0x7642, 0x76420, 0x76421, 0x764210, 0x7643, 0x76430, 0x76431,
    0x764310, 0x76432, 0x764320, 0x764321, 0x7643210, 0x765, 0x7650, 0x7651, 0x76510, 0x7652,
    0x76520, 0x76521, 0x765210, 0x7653, 0x76530, 0x76531, 0x765310, 0x76532, 0x765320, 0x765321,
    0x7653210, 0x7654, 0x76540, 0x76541, 0x765410, 0x76542, 0x765420, 0x765421, 0x7654210, 0x76543,
    0x765430, 0x765431, 0x7654310, 0x765432, 0x7654320, 0x7654321, 0x76543210,
];

// Returns the position of the set bit with `rank` set bits before it, among the lowest eight bits.
fn place_in_byte(word: u64, rank: u64) -> u64
    requires { rank < ones_below (bit_of word) 8 }
    ensures within { result < 8 }
    ensures set { bit_of word result ≡ true }
    ensures before { ones_below (bit_of word) result ≡ rank }
{
    let places = PLACES[(word % 256) as usize];
    (places >> (4 * rank as u32)) as u64 % 8
}

// Returns the position of the set bit with `rank` set bits before it: three steps halve the word, then a table answers
// for the remaining byte.
#[tactic(auto, using(crate::specs::CountLaws::halves_high, crate::specs::CountLaws::halves_rank, crate::specs::CountLaws::halves_start))]
fn place_in_word<L>(word: u64, rank: u64, tally: &mut Tally<L>) -> u64
    requires { rank < count_ones word }
    ensures within { result < 64 }
    ensures set { bit_of word result ≡ true }
    ensures before { ones_below (bit_of word) result ≡ rank }
    ensures turns { tally.new.turns ≡ tally.old.turns + 3 }
    ensures counts { tally.new.counts ≡ tally.old.counts }
    ensures words { tally.new.words ≡ tally.old.words }
{
    let mut rest = word;
    let mut left = rank;
    let mut place = 0;
    let mut level: u32 = 6;
    while level > 3 {
        tally.tick();
        level -= 1;
        let half = 1 << level;
        let low = ones_in(rest, half);
        if low <= left {
            left -= low;
            place += half;
            rest >>= half;
        }
    }
    place + place_in_byte(rest, left)
}

/// Returns the position of the set bit of a word that has `rank` set bits before it; 64 if at most `rank` bits are set.
pub fn select_in_word(word: u64, rank: u64) -> u64
    ensures set { rank < count_ones word → bit_of word result ≡ true }
    ensures before { rank < count_ones word → ones_below (bit_of word) result ≡ rank }
    ensures within { rank < count_ones word → result < 64 }
    ensures none { count_ones word ≤ rank → result ≡ 64 }
{
    if rank < word.count_ones() as u64 {
        place_in_word(word, rank, &mut Tally::new())
    } else {
        64
    }
}

// The candidates of a search: chunk `low` or one of the `rest` chunks after it, with `sum` set bits before chunk `low`.
// In a search for a word, it is one of the `rest` words from `low` on.
#[derive(Clone, Copy)]
struct Span {
    low: usize,
    sum: u64,
    rest: usize,
}

// Reads count `at` of a span; returns the remaining span, and that count.
#[tactic(auto, using(crate::specs::CountLaws::count_before_next))]
#[inline(always)]
fn looked<L>(
    counts: &MeteredCounts<'_, L>,
    rank: u64,
    span: Span,
    at: usize,
    tally: &mut Tally<L>,
) -> (Span, u64)
    requires span { IsSpan counts.now rank span.low span.sum span.rest }
    requires inside { at < span.rest }
    ensures span { IsSpan counts.now rank result.0.low result.0.sum result.0.rest }
    ensures less { result.0.rest < span.rest }
    ensures half { at ≡ span.rest / 2 → result.0.rest ≤ span.rest / 2 }
    ensures other_half { at ≡ span.rest / 2 → span.rest ≤ 2 * result.0.rest + 2 }
    ensures counts { tally.new.counts ≡ tally.old.counts + 1 }
    ensures words { tally.new.words ≡ tally.old.words }
    ensures turns { tally.new.turns ≡ tally.old.turns }
{
    let count = counts.read(span.low + at, tally);
    let left = if count <= rank {
        Span {
            low: span.low + at + 1,
            sum: count,
            rest: span.rest - at - 1,
        }
    } else {
        Span { rest: at, ..span }
    };
    (left, count)
}

// Reads at most two counts of a span, at `from` and eight further on, between which the rank is expected. It reads the
// upper one first if `from` is in the lower half, and the lower one first otherwise. It reads the other one only if the
// rank lies on that side; then at least half of the span drops out, whatever the other count is. Otherwise the span
// stays the same. The first index is computed without a branch, because that branch would be unpredictable; the other
// branches mostly go one way.
#[tactic(auto, using(columnar_base::specs::DigitLaws::digits_le, columnar_base::specs::DigitLaws::digits_half, crate::specs::CountLaws::count_before_next))]
#[inline(always)]
fn looked_around<L>(
    counts: &MeteredCounts<'_, L>,
    rank: u64,
    span: Span,
    from: usize,
    tally: &mut Tally<L>,
) -> Span
    requires span { IsSpan counts.now rank span.low span.sum span.rest }
    requires enough { 14 ≤ span.rest }
    ensures span { IsSpan counts.now rank result.low result.sum result.rest }
    ensures less { result.rest ≤ span.rest }
    ensures cost { tally.new.counts + digits result.rest ≤ tally.old.counts + digits span.rest + 1 }
    ensures few { tally.new.counts ≤ tally.old.counts + 2 }
    ensures counts { tally.old.counts ≤ tally.new.counts }
    ensures words { tally.new.words ≡ tally.old.words }
    ensures turns { tally.new.turns ≡ tally.old.turns }
{
    if span.rest - 8 <= from {
        return span;
    }
    let lower = from <= span.rest / 2;
    let below = span.low + from;
    let eight = 8 * lower as usize;
    let (first, second) = (below + eight, below + 8 - eight);
    let one = counts.read(first, tally);
    if (one <= rank) == lower {
        return span;
    }
    let two = counts.read(second, tally);
    if (two <= rank) == lower {
        Span {
            low: below + 1,
            sum: one.min(two),
            rest: 7,
        }
    } else if two <= rank {
        Span {
            low: second + 1,
            sum: two,
            rest: span.rest - from - 9,
        }
    } else {
        Span { rest: from, ..span }
    }
}

// Narrows a span by the count in its middle, then by the count in the middle of the remaining half. It then reads two
// counts slightly below and above the rank's estimated place, as if the counts rose evenly in that half.
#[tactic(auto, using(columnar_base::specs::DigitLaws::digits_le, columnar_base::specs::DigitLaws::digits_half))]
fn narrowed<L>(counts: &MeteredCounts<'_, L>, rank: u64, span: Span, tally: &mut Tally<L>) -> Span
    requires span { IsSpan counts.now rank span.low span.sum span.rest }
    requires enough { 64 ≤ span.rest }
    ensures span { IsSpan counts.now rank result.low result.sum result.rest }
    ensures less { result.rest ≤ span.rest }
    ensures cost { tally.new.counts + digits result.rest ≤ tally.old.counts + digits span.rest + 1 }
    ensures few { tally.new.counts ≤ tally.old.counts + 4 }
    ensures counts { tally.old.counts ≤ tally.new.counts }
    ensures words { tally.new.words ≡ tally.old.words }
    ensures turns { tally.new.turns ≡ tally.old.turns }
{
    let (half, _) = looked(counts, rank, span, span.rest / 2, tally);
    let middle = half.rest / 2;
    let (quarter, count) = looked(counts, rank, half, middle, tally);
    // (in units of sixteen set bits, since division of small numbers is faster)
    let trues = (count.saturating_sub(half.sum) / 16).max(1);
    let beyond = (rank.saturating_sub(half.sum) / 16).wrapping_mul(middle as u64 + 1) / trues;
    let chunk = half.low.wrapping_add(beyond as usize);
    let from = chunk.wrapping_sub(quarter.low + 4);
    looked_around(counts, rank, quarter, from, tally)
}

// Finds the first chunk with more than `rank` set bits up to its end, and the number of set bits before it, by binary
// search of a span. The number of steps depends only on the number of counts. No branch depends on the counts that a
// step reads, because such branches would be unpredictable.
#[tactic(auto, using(columnar_base::specs::DigitLaws::digits_from))]
fn find_in_span<L>(
    counts: &MeteredCounts<'_, L>,
    rank: u64,
    span: Span,
    tally: &mut Tally<L>,
) -> (usize, u64)
    requires rising { (i : ℕ) → i + 1 < length counts.now → slice_index counts.now i ≤ slice_index counts.now (i + 1) }
    requires span { IsSpan counts.now rank span.low span.sum span.rest }
    ensures found { IsSpan counts.now rank result.0 result.1 0 }
    ensures cost { tally.new.counts ≤ tally.old.counts + digits span.rest }
    ensures counts { tally.old.counts ≤ tally.new.counts }
    ensures words { tally.new.words ≡ tally.old.words }
    ensures turns { tally.new.turns ≤ tally.old.turns + digits span.rest }
{
    let mut low = span.low;
    let mut sum = span.sum;
    let mut rest = span.rest;
    while rest > 0 {
        tally.tick();
        let half = rest / 2;
        let step = rest - half;
        let count = counts.read(low + step - 1, tally);
        if count <= rank {
            low += step;
            sum = count;
        }
        rest = half;
    }
    (low, sum)
}

// Does the same as `find_in_span` for seven counts. It reads all seven, so no read waits for another, and then the
// count before the chunk it found.
#[tactic(auto, using(crate::specs::CountLaws::count_before_next))]
#[inline(always)]
fn find_in_seven<L>(
    counts: &MeteredCounts<'_, L>,
    rank: u64,
    span: Span,
    tally: &mut Tally<L>,
) -> (usize, u64)
    requires span { IsSpan counts.now rank span.low span.sum span.rest }
    requires seven { span.rest ≡ 7 }
    ensures found { IsSpan counts.now rank result.0 result.1 0 }
    ensures few { tally.new.counts ≤ tally.old.counts + 8 }
    ensures counts { tally.old.counts ≤ tally.new.counts }
    ensures words { tally.new.words ≡ tally.old.words }
    ensures turns { tally.new.turns ≡ tally.old.turns + 7 }
{
    let mut chunk = span.low;
    for i in 0..7 {
        tally.tick();
        let count = counts.read(span.low + i, tally);
        if count <= rank {
            chunk = span.low + i + 1;
        }
    }
    (chunk, ones_before(counts, chunk, tally))
}

// Finds the first chunk with more than `rank` set bits up to its end, and the number of set bits before it.
#[tactic(auto, using(columnar_base::specs::DigitLaws::digits_le, crate::specs::CountLaws::count_before_none))]
fn find_chunk<L>(counts: &MeteredCounts<'_, L>, rank: u64, tally: &mut Tally<L>) -> (usize, u64)
    requires rising { (i : ℕ) → i + 1 < length counts.now → slice_index counts.now i ≤ slice_index counts.now (i + 1) }
    ensures found { IsSpan counts.now rank result.0 result.1 0 }
    ensures cost { tally.new.counts ≤ tally.old.counts + (digits (length counts.now) + 1) }
    ensures counts { tally.old.counts ≤ tally.new.counts }
    ensures words { tally.new.words ≡ tally.old.words }
    ensures turns { tally.new.turns ≤ tally.old.turns + digits (length counts.now) }
{
    let whole = Span {
        low: 0,
        sum: 0,
        rest: counts.len(),
    };
    if whole.rest < 1024 {
        return find_in_span(counts, rank, whole, tally);
    }
    let span = narrowed(counts, rank, whole, tally);
    if span.rest == 7 {
        find_in_seven(counts, rank, span, tally)
    } else {
        find_in_span(counts, rank, span, tally)
    }
}

// Halves a span of whole words: returns the half that has the set bit.
#[tactic(auto, using(crate::specs::CountLaws::ones_word_whole, crate::specs::CountLaws::ones_below_le, crate::specs::CountLaws::kept_more, crate::specs::CountLaws::length_words))]
#[inline(always)]
fn half_of_words<L>(
    words: &MeteredWords<'_, L>,
    rank: u64,
    span: Span,
    tally: &mut Tally<L>,
) -> Span
    requires even { span.rest ≡ 2 * (span.rest / 2) }
    requires whole { span.low + span.rest < length words.now }
    requires short { length words.now ≤ 2 ^ 58 }
    requires before { span.sum ≡ ones_below (bit_in words.now) (64 * span.low) }
    requires below { span.sum ≤ rank }
    requires above { rank < ones_below (bit_in words.now) (64 * (span.low + span.rest)) }
    ensures half { result.rest ≡ span.rest / 2 }
    ensures within { result.low + result.rest ≤ span.low + span.rest }
    ensures before { result.sum ≡ ones_below (bit_in words.now) (64 * result.low) }
    ensures below { result.sum ≤ rank }
    ensures above { rank < ones_below (bit_in words.now) (64 * (result.low + result.rest)) }
    ensures reads { Adds 0 (span.rest / 2) tally.old tally.new }
    ensures turns { tally.new.turns ≡ tally.old.turns + span.rest / 2 }
{
    let half = span.rest / 2;
    let mut sum = span.sum;
    for i in 0..half {
        tally.tick();
        sum += words.read_whole(span.low + i, tally).count_ones() as u64;
    }
    if sum <= rank {
        Span {
            low: span.low + half,
            sum,
            rest: half,
        }
    } else {
        Span { rest: half, ..span }
    }
}

// Returns the position of the set bit with `rank` set bits before it, which is in one of sixteen whole words. It halves
// the words; no branch depends on what it reads, because such branches would be unpredictable.
#[tactic(auto, using(crate::specs::CountLaws::ones_word_whole, crate::specs::CountLaws::kept_more, crate::specs::CountLaws::found_in, crate::specs::CountLaws::length_words))]
fn select_in_chunk<L>(
    words: &MeteredWords<'_, L>,
    rank: u64,
    chunk: Span,
    tally: &mut Tally<L>,
) -> usize
    requires sixteen { chunk.rest ≡ 16 }
    requires whole { chunk.low + 16 < length words.now }
    requires short { length words.now ≤ 2 ^ 58 }
    requires before { chunk.sum ≡ ones_below (bit_in words.now) (64 * chunk.low) }
    requires below { chunk.sum ≤ rank }
    requires above { rank < ones_below (bit_in words.now) (64 * (chunk.low + 16)) }
    ensures within { result < 64 * length words.now }
    ensures set { bit_in words.now result ≡ true }
    ensures before { ones_below (bit_in words.now) result ≡ rank }
    ensures reads { Adds 0 16 tally.old tally.new }
    ensures some_read { length tally.old.words < length tally.new.words }
    ensures turns { tally.new.turns ≤ tally.old.turns + 18 }
{
    let eight = half_of_words(words, rank, chunk, tally);
    let four = half_of_words(words, rank, eight, tally);
    let two = half_of_words(words, rank, four, tally);
    let one = half_of_words(words, rank, two, tally);
    let word = words.read_whole(one.low, tally);
    64 * one.low + place_in_word(word, rank - one.sum, tally) as usize
}

// Returns the position of the set bit with `rank` set bits before it.
#[tactic(auto, using(crate::specs::CountLaws::ones_word_whole, crate::specs::CountLaws::ones_below_le, crate::specs::CountLaws::kept_more, crate::specs::CountLaws::found_in, crate::specs::CountLaws::length_words))]
pub(crate) fn select_in<L>(
    counts: &MeteredCounts<'_, L>,
    words: &MeteredWords<'_, L>,
    rank: u64,
    tally: &mut Tally<L>,
) -> Option<usize>
    requires short { length words.now ≤ 2 ^ 58 }
    requires enough { 16 * length counts.now < length words.now }
    requires counted { length words.now ≤ 16 * length counts.now + 16 }
    requires exact { CountWords words.now counts.now }
    ensures value { MatchOption result (ones_below (bit_in words.now) (64 * length words.now) ≤ rank) (λ p. (p < 64 * length words.now) × (bit_in words.now p ≡ true) × (ones_below (bit_in words.now) p ≡ rank)) }
    ensures reads { Adds (digits (length counts.now) + 1) 16 tally.old tally.new }
    ensures some_read { length tally.old.words < length tally.new.words }
    ensures turns { tally.new.turns ≤ tally.old.turns + (digits (length counts.now) + 19) }
{
    let (chunk, mut sum) = find_chunk(counts, rank, tally);
    let low = 16 * chunk;
    if chunk < counts.len() {
        let rest = 16;
        return Some(select_in_chunk(words, rank, Span { low, sum, rest }, tally));
    }
    for at in low..words.len() {
        tally.tick();
        let word = words.read(at, tally);
        let ones = word.count_ones() as u64;
        if rank - sum < ones {
            return Some(64 * at + place_in_word(word, rank - sum, tally) as usize);
        }
        sum += ones;
    }
    None
}

// Returns 1 for a set bit and 0 for a clear one.
pub(crate) fn one_of(bit: bool) -> u64
    ensures value { result ≡ cond bit 1 0 }
    ensures small { result ≤ 1 }
{
    if bit { 1 } else { 0 }
}
