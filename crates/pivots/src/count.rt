// How many rows of the next segments are set.
ghost use Rattle.std.specs.Prelude.{Bool, false, ◌≡◌, ℕ, ◌+◌, ◌-◌, ◌*◌, ◌≤◌, min};
ghost use Rattle.meaning.specs.Limits.{most_segments, block_segments};
ghost use Rattle.meaning.specs.Rows.{count_below};
ghost use Rattle.meaning.specs.Segment.{segment_count, rows_in, all_set};
ghost use Rattle.meaning.specs.Format.{width};
ghost use Rattle.meaning.specs.declared.Format.{Format};
ghost use Rattle.pivots.specs.Splits.{HasRows};

use meaning::BLOCK_SEGMENTS;
use words::bits;

// Of n segments, of whose last the mask has the rows; where they are all alike, the first word is that of each.
pub fn count(words: [u32; BLOCK_SEGMENTS], n: u32, even: bool, mask: u32) -> u32
    requires { (1 ≤ n) × (n ≤ most_segments) × (even ≡ false → n ≤ block_segments) }
    ensures { (F : Format) (R o : ℕ) (p : ℕ → Bool) → mask ≡ all_set (rows_in (width F) R (o + n - 1))
        → o + n ≤ segment_count (width F) R → HasRows F o n even words p
        → count_below (min ((o + n) * width F) R) p ≡ count_below (min (o * width F) R) p + result }
{
    if even {
        return (n - 1) * bits::count(words[0]) + bits::count(words[0] & mask);
    }
    let last = n as usize - 1;
    let mut cut = words;
    cut[last] = words[last] & mask;
    popcount::count_each(&cut[0..n as usize])
}
