// A block of the answer as it is written: where its last segment has pad bits, that segment's words go by its rows alone.
ghost use Rattle.std.specs.Prelude.{◌≡◌, false, ℕ, ◌+◌, ◌-◌, ◌≤◌, ◌<◌, length};
ghost use Rattle.meaning.specs.Limits.{most_value_column, block_segments, block_words};
ghost use Rattle.meaning.specs.Segment.{segment_count, rows_in, all_set};
ghost use Rattle.meaning.specs.Format.{width};
ghost use Rattle.meaning.specs.declared.Format.{Format};
ghost use Rattle.pairs.specs.Spellings.{WordsSpelled, Spelled};

use blocks::choose::Step;
use meaning::{BLOCK_SEGMENTS, BLOCK_WORDS};
use words::rows;

// Word w of each of the first `count` rows, of whose bits the mask has the rows;
// `full` is the word of a segment of ones.
fn spell_each(z: &mut [u32; BLOCK_WORDS], count: usize, w: usize, mask: u32, full: u32)
    requires { (length z.old ≡ block_words) × (count ≤ most_value_column) × (w < block_segments) }
    ensures { (F : Format) → full ≡ all_set (width F)
        → WordsSpelled F z.old count w mask z.new }
{
    for i in 0..count {
        let at = i * BLOCK_SEGMENTS + w;
        z[at] = rows::spelled(z[at], mask, full);
    }
}

// The segments of a step, a row for each of `count` bodies, of whose last one the mask has the rows. The words of a run
// are all zeros or all ones, over pad bits too, and stay.
pub fn spell(z: &mut [u32; BLOCK_WORDS], count: usize, s: Step, mask: u32, full: u32)
    requires { (1 ≤ s.n) × (length z.old ≡ block_words) × (count ≤ most_value_column)
        × (s.even ≡ false → s.n ≤ block_segments) }
    ensures { (F : Format) (R o : ℕ) → full ≡ all_set (width F) → o + s.n ≤ segment_count (width F) R
        → mask ≡ all_set (rows_in (width F) R (o + s.n - 1))
        → Spelled F R o s.n s.even z.old count z.new }
{
    if s.even || mask == full {
        return;
    }
    spell_each(z, count, s.n as usize - 1, mask, full);
}
