// The nth set row, in one pass: words are passed by their counts until one has it.
ghost use Rattle.std.specs.Prelude.{◌≡◌, [], ◌∷◌, ◌*◌, ◌≤◌, ◌<◌, length};
ghost use Rattle.meaning.specs.Limits.{most_rows};
ghost use Rattle.meaning.specs.Segment.{has_row, ones};
ghost use Rattle.meaning.specs.Wah.{wah_segments, wah_rows};
ghost use Rattle.laws.specs.Laws.{WahFacts};
ghost use Rattle.meaning.specs.Answer.{ask_nth};
ghost use Rattle.laws.specs.Demands.{IsNth};
ghost use Rattle.answers.specs.Told.{found_of};

use crate::count;
use wah::word;
use words::bits;

// The set bit that has k set bits before it in the segments that a word spells, as a row of theirs.
fn nth_in_word(x: u32, k: u32) -> u32
    requires { k < ones 31 (wah_segments (x ∷ [])) }
    ensures { IsNth (length (wah_segments (x ∷ [])) * 31) (has_row 31 (wah_segments (x ∷ []))) k result }
{
    if word::is_fill(x) { k } else { bits::nth(x, k) }
}

// The nth set row, from 0. Where the bit that is found lies past the last row it is a pad bit, and not so many rows are
// set.
pub fn nth(body: &[u32], rows: u32, n: u32) -> Option<u32>
    requires { (rows ≤ most_rows) × WahFacts rows body.now }
    ensures { found_of result ≡ ask_nth rows (wah_rows body.now) n }
{
    let mut behind = 0;
    let mut ahead = n;
    for &x in body {
        let here = count::count_word(x);
        if ahead < here {
            let row = behind * 31 + nth_in_word(x, ahead);
            return if row < rows { Some(row) } else { None };
        }
        ahead -= here;
        behind += word::size(x);
    }
    None
}
