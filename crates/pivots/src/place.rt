// Where the last of so many set rows of the next segments stands.
ghost use Rattle.std.specs.Prelude.{Bool, true, false, ◌≡◌, ℕ, ◌+◌, ◌*◌, ◌^◌, ◌≤◌, ◌<◌};
ghost use Rattle.meaning.specs.Limits.{word_bits, most_segments, block_segments};
ghost use Rattle.meaning.specs.Rows.{count_below};
ghost use Rattle.meaning.specs.Segment.{is_set};
ghost use Rattle.meaning.specs.Format.{width};
ghost use Rattle.meaning.specs.declared.Format.{Format};
ghost use Rattle.pivots.specs.Splits.{HasRows, Reached};

use meaning::BLOCK_SEGMENTS;
use words::bits;

// How many bits of a word, from the lowest on, have just n set ones: no more than w where it has no bit from w on.
fn reach(x: u32, n: u32) -> u32
    requires { n ≤ count_below 32 (is_set x) }
    ensures { (result ≤ 32) × (count_below result (is_set x) ≡ n) × ((w : ℕ) → x < 2 ^ w → result ≤ w) }
{
    if n == 0 {
        return 0;
    }
    bits::nth(x, n - 1) + 1
}

// How many rows of a block of n segments of w bits, from the first on, have just `take` set ones.
fn in_block(words: [u32; BLOCK_SEGMENTS], n: u32, w: u32, take: u32) -> u32
    requires { (n ≤ block_segments) × (w ≤ word_bits) }
    ensures { (F : Format) (o : ℕ) (p : ℕ → Bool) → w ≡ width F → HasRows F o n false words p
        → Reached F o n p take result }
{
    let mut left = take;
    for i in 0..n {
        let x = words[i as usize];
        let c = bits::count(x);
        if left <= c {
            return i * w + reach(x, left);
        }
        left -= c;
    }
    n * w
}

// How many rows of the next n segments of w bits, from the first on, have just `take` set ones. Where they are all
// alike, all rows are set, or none is and none is asked for.
pub fn place(words: [u32; BLOCK_SEGMENTS], n: u32, even: bool, w: u32, take: u32) -> u32
    requires { (n ≤ most_segments) × (even ≡ false → n ≤ block_segments) × (w ≤ word_bits) }
    ensures { (F : Format) (o : ℕ) (p : ℕ → Bool) → w ≡ width F → HasRows F o n even words p
        → (even ≡ true → (k : ℕ) → k < n * width F → p (o * width F + k) ≡ p (o * width F))
        → Reached F o n p take result }
{
    if even {
        return take;
    }
    in_block(words, n, w, take)
}
