// Plain words read as segments of either format, with no state: each from one or two words of 32 rows.
ghost use Rattle.std.specs.Prelude.{◌≡◌, ◌+◌, ◌*◌, ◌≤◌, ◌<◌, length};
ghost use Rattle.meaning.specs.Limits.{most_segments};
ghost use Rattle.meaning.specs.Segment.{word_of, has_row};
ghost use Rattle.meaning.specs.Format.{width};

use crate::packer;
use meaning::Format;
use words::rows;

// A word, widened to 64 bits.
fn wide(x: u32) -> u64
    ensures { (result ≡ x) × (result < 4294967296) }
{
    x as u64
}

// The 64 rows of word k and the one behind it; past the last word no row is set.
fn pair(plain: &[u32], k: usize) -> u64
    requires { k < length plain.now }
    ensures { result ≡ word_of 64 (λ j. has_row 32 plain.now (k * 32 + j)) }
{
    let low = wide(plain[k]);
    if plain.len() - k == 1 {
        return low;
    }
    low + (wide(plain[k + 1]) << 32)
}

// The n rows from row `at` on.
fn rows_from(plain: &[u32], at: u32, n: u32) -> u32
    requires { (n ≤ 32) × (at < 32 * length plain.now) }
    ensures { result ≡ word_of n (λ j. has_row 32 plain.now (at + j)) }
{
    let both = pair(plain, (at >> 5) as usize);
    packer::lowest(both >> (at & 31), n)
}

// The word of segment i.
pub fn segment_at(plain: &[u32], i: u32, format: Format) -> u32
    requires { (i * width format < 32 * length plain.now) × (length plain.now ≤ most_segments) }
    ensures { result ≡ word_of (width format) (λ j. has_row 32 plain.now (i * width format + j)) }
{
    let w = rows::width(format);
    rows_from(plain, i * w, w)
}
