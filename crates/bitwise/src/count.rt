// How many rows are set, as the library counts it but for the dirty words, whose bits are tested one by one.
ghost use Rattle.std.specs.Prelude.{◌≡◌, ◌≤◌};
ghost use Rattle.meaning.specs.Limits.{most_rows};
ghost use Rattle.meaning.specs.Rows.{count_below};
ghost use Rattle.meaning.specs.Segment.{is_set};
ghost use Rattle.meaning.specs.Ewah.{ewah_rows};
ghost use Rattle.laws.specs.Laws.{EwahFacts};

use ewah_count::count::{CountsWords, count_segments, pads_set};
use words::bits;

// How many bits of a word are set.
pub fn count_word(x: u32) -> u32
    ensures { result ≡ count_below 32 (is_set x) }
{
    let mut n = 0;
    for j in 0..32 {
        if bits::has(x, j) {
            n += 1;
        }
    }
    n
}

// Bit by bit.
pub struct BitByBit;

impl CountsWords for BitByBit {
    fn count_words(ws: &[u32]) -> u32 {
        let mut n = 0;
        for x in ws {
            n += count_word(*x);
        }
        n
    }
}

// How many rows are set.
pub fn count(body: &[u32], rows: u32) -> u32
    requires { (rows ≤ most_rows) × EwahFacts rows body.now }
    ensures { result ≡ count_below rows (ewah_rows body.now) }
{
    let counted = count_segments::<BitByBit>(body, rows);
    counted.set - pads_set(counted.last, rows)
}
