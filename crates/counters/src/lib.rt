// A counter of a few bits for each bit of a segment's word, in planes:
// bit k of the counter of bit j is bit j of planes[k].
#![tactic(auto)]

ghost use Rattle.std.specs.Prelude.{◌≡◌, ◌&&◌, ℕ, ◌+◌, ◌≤◌, ◌<◌, leb, eqb, length, get_or};
ghost use Rattle.meaning.specs.Limits.{most_named, histogram_counts, counter_planes, most_counted, most_rows};
ghost use Rattle.meaning.specs.Rows.{count_below};
ghost use Rattle.meaning.specs.Segment.{bit_at, is_set};
ghost use Rattle.counters.specs.Counters.{count_at};

use meaning::{HISTOGRAM_COUNTS, PLANES};
use words::bits;

// The planes that few dirty words are compared in, and how many those are: all that so many planes count.
const FEW_PLANES: usize = 4;

const FEW_COUNTED: u32 = 15;

// One more for each row of a word: a carry goes up the planes until it is empty.
pub fn add(planes: [u32; PLANES], x: u32) -> [u32; PLANES]
    requires { (j : ℕ) → j < 32 → count_at planes j < most_counted }
    ensures { (length result ≡ counter_planes) × ((j : ℕ) → j < 32 → count_at result j ≡ count_at planes j + bit_at x j) }
{
    let mut r = planes;
    let mut carry = x;
    for k in 0..PLANES {
        if carry == 0 {
            return r;
        }
        let p = r[k];
        r[k] = p ^ carry;
        carry = p & carry;
    }
    r
}

// The rows whose counter is at least t, where no counter passes `most`: of few bitmaps the higher planes are empty, and are not
// read.
pub fn at_least(planes: [u32; PLANES], most: u32, t: u32) -> u32
    requires { (most ≤ most_counted) × ((j : ℕ) → j < 32 → count_at planes j ≤ most) }
    ensures { (j : ℕ) → j < 32 → is_set result j ≡ leb t (count_at planes j) }
{
    if most < t {
        return 0;
    }
    let mut r: u32 = 0xFFFF_FFFF;
    for k in 0..PLANES {
        if k == FEW_PLANES {
            if most <= FEW_COUNTED {
                return r;
            }
        }
        if (t >> k) & 1 == 1 {
            r = r & planes[k];
        } else {
            r = r | planes[k];
        }
    }
    r
}

// The rows whose counter is t, where no counter passes `most`.
pub fn equals(planes: [u32; PLANES], most: u32, t: u32) -> u32
    requires { (most ≤ most_counted) × ((j : ℕ) → j < 32 → count_at planes j ≤ most) }
    ensures { (j : ℕ) → j < 32 → is_set result j ≡ eqb (count_at planes j) t }
{
    if most < t {
        return 0;
    }
    let mut r: u32 = 0xFFFF_FFFF;
    for k in 0..PLANES {
        if k == FEW_PLANES {
            if most <= FEW_COUNTED {
                return r;
            }
        }
        if (t >> k) & 1 == 1 {
            r = r & planes[k];
        } else {
            r = r & !planes[k];
        }
    }
    r
}

// The rows at whose count the table says 1, where base more bitmaps have every row and no counter passes `most`.
pub fn by_table(planes: [u32; PLANES], base: u32, most: u32, table: &[u32]) -> u32
    requires { (base + most ≤ most_named) × (length table.now ≤ histogram_counts)
        × ((j : ℕ) → j < 32 → count_at planes j ≤ most) }
    ensures { (j : ℕ) → j < 32 → is_set result j ≡ eqb (get_or table.now (base + count_at planes j) 0) 1 }
{
    let mut r: u32 = 0;
    let from = base as usize;
    for k in from..table.len() {
        if table[k] == 1 {
            r |= equals(planes, most, (k - from) as u32);
        }
    }
    r
}

// Each row of the mask is counted in at its count, where base more bitmaps have every row and no counter passes `most`: only the
// entries from base to base + most can grow.
pub fn add_to_histogram(
    counts: &mut [u32; HISTOGRAM_COUNTS],
    planes: [u32; PLANES],
    base: u32,
    most: u32,
    mask: u32,
)
    requires { (base + most ≤ most_named) × (length counts.old ≡ histogram_counts)
        × ((c : ℕ) → c < histogram_counts → get_or counts.old c 0 ≤ most_rows)
        × ((j : ℕ) → j < 32 → count_at planes j ≤ most) }
    ensures { (length counts.new ≡ histogram_counts)
        × ((c : ℕ) → c < histogram_counts → get_or counts.new c 0
        ≡ get_or counts.old c 0 + count_below 32 (λ j. is_set mask j && eqb (base + count_at planes j) c)) }
{
    let from = base as usize;
    let end = from + most as usize + 1;
    for c in from..end {
        let rows = mask & equals(planes, most, (c - from) as u32);
        counts[c] += bits::count(rows);
    }
}
