// How long a body in canonical form can be.
ghost use Rattle.std.specs.Prelude.{Bool, ℕ, ◌≤◌, length};
ghost use Rattle.meaning.specs.Limits.{most_rows};
ghost use Rattle.meaning.specs.Format.{canonical};

use meaning::{Format, MOST_DIRTY};
use words::rows;

// No body of that many rows has more words: in EWAH a word for each segment and for each marker, in WAH a word for each
// segment.
pub fn most_words(format: Format, rows: u32) -> usize
    requires { rows ≤ most_rows }
    ensures { (p : ℕ → Bool) → length (canonical format rows p) ≤ result }
{
    let segments = rows::segments(format, rows) as usize;
    match format {
        Format::Ewah => segments + segments / MOST_DIRTY as usize + 1,
        Format::Wah => segments,
    }
}
