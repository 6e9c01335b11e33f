// How many rows are set, word by word: a fill at once, a literal by its bits.
ghost use Rattle.std.specs.Prelude.{◌≡◌, [], ◌∷◌, ◌≤◌};
ghost use Rattle.meaning.specs.Limits.{most_rows, most_segments};
ghost use Rattle.meaning.specs.Rows.{count_below};
ghost use Rattle.meaning.specs.Segment.{ones, pads};
ghost use Rattle.meaning.specs.Piece.{piece_size};
ghost use Rattle.meaning.specs.Wah.{piece_of, wah_segments, wah_rows};
ghost use Rattle.laws.specs.Laws.{WahFacts};

use meaning::Format;
use wah::word;
use words::{bits, rows};

// How many bits are set in the segments that a word spells.
pub fn count_word(x: u32) -> u32
    requires { piece_size (piece_of x) ≤ most_segments }
    ensures { result ≡ ones 31 (wah_segments (x ∷ [])) }
{
    if word::is_fill(x) {
        let fill = word::read(x);
        return fill.count * (fill.value * 31);
    }
    bits::count(x)
}

// How many pad bits of the last segment are set: those of a fill of ones. A literal sets none.
fn pads_set(body: &[u32], rows: u32) -> u32
    requires { (rows ≤ most_rows) × WahFacts rows body.now }
    ensures { result ≡ pads 31 rows (wah_segments body.now) }
{
    let Some(&last) = body.last() else {
        return 0;
    };
    if word::is_fill(last) {
        return word::read(last).value * (rows::segments(Format::Wah, rows) * 31 - rows);
    }
    0
}

// How many rows are set.
pub fn count(body: &[u32], rows: u32) -> u32
    requires { (rows ≤ most_rows) × WahFacts rows body.now }
    ensures { result ≡ count_below rows (wah_rows body.now) }
{
    let mut n = 0;
    for &x in body {
        n += count_word(x);
    }
    n - pads_set(body, rows)
}
