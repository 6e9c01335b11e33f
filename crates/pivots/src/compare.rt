// The values of a block's rows compared with the pivot, digit by digit from the top one down, many rows at a time.
ghost use Rattle.std.specs.Prelude.{◌≡◌, ℕ, ◌≤◌, ◌<◌, ◌^◌, length};
ghost use Rattle.meaning.specs.Limits.{word_bits, block_words};
ghost use Rattle.meaning.specs.Segment.{is_set};
ghost use Rattle.laws.specs.Pivot.{lead};
ghost use Rattle.pivots.specs.Splits.{Refined, SplitBy, Taken};

use meaning::{BLOCK_SEGMENTS, BLOCK_WORDS, Ranking};
use words::{bits, vectors};

// Of the rows of a block those whose value comes before the pivot's, and those that have it.
#[derive(Clone, Copy)]
pub struct Compared {
    pub ahead: [u32; BLOCK_SEGMENTS],
    pub same: [u32; BLOCK_SEGMENTS],
}

// The binary digit that comes first.
pub fn lead(op: Ranking) -> u32
    ensures { result ≡ lead op }
{
    match op {
        Ranking::Largest => 1,
        Ranking::Smallest => 0,
    }
}

// One digit more, which x has. Of the rows that agreed with the pivot so far those agree on whose digit is its own; the others come
// before it if theirs is the digit that comes first, and else behind it.
fn refine(s: Compared, x: [u32; BLOCK_SEGMENTS], digit: u32, first: u32) -> Compared
    requires { digit < 2 }
    ensures { Refined digit first s.ahead s.same x result.ahead result.same }
{
    let flip = bits::filled(digit == 0);
    let gain = bits::filled(digit != first);
    let before = s.ahead;
    let agreed = s.same;
    let mut ahead: [u32; BLOCK_SEGMENTS] = [0; BLOCK_SEGMENTS];
    let mut same: [u32; BLOCK_SEGMENTS] = [0; BLOCK_SEGMENTS];
    for w in 0..BLOCK_SEGMENTS {
        let had = agreed[w];
        let has = had & (x[w] ^ flip);
        same[w] = has;
        ahead[w] = before[w] | ((had ^ has) & gain);
    }
    Compared { ahead, same }
}

// The rows of a block of n slices against a pivot of as many digits.
pub fn split(op: Ranking, x: &[u32; BLOCK_WORDS], n: usize, pivot: u32) -> Compared
    requires { (n ≤ word_bits) × (length x.now ≡ block_words) × (pivot < 2 ^ n) }
    ensures { SplitBy op x.now n pivot result.ahead result.same }
{
    let first = lead(op);
    let mut s = Compared {
        ahead: [0; BLOCK_SEGMENTS],
        same: vectors::part(x, 0),
    };
    for i in (0..n).rev() {
        let digit = (pivot >> i as u32) & 1;
        let t = refine(s, vectors::part(x, (i + 1) * BLOCK_SEGMENTS), digit, first);
        s = t;
    }
    s
}

// The rows that are ahead, and of those that have the pivot's value the ones that `keep` has.
pub fn taken(s: Compared, keep: u32) -> [u32; BLOCK_SEGMENTS]
    ensures { Taken s.ahead s.same keep result }
{
    let ahead = s.ahead;
    let same = s.same;
    let mut r: [u32; BLOCK_SEGMENTS] = [0; BLOCK_SEGMENTS];
    for w in 0..BLOCK_SEGMENTS {
        r[w] = ahead[w] | (same[w] & keep);
    }
    r
}
