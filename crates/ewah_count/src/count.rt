// How many rows are set, marker by marker: its clean run at once, and its dirty words.
ghost use Rattle.std.specs.Prelude.{◌≡◌, ◌+◌, ◌≤◌, ◌<◌, length, replicate};
ghost use Rattle.meaning.specs.Limits.{most_rows, most_segments, most_clean};
ghost use Rattle.meaning.specs.Rows.{count_below};
ghost use Rattle.meaning.specs.Segment.{ones, fill};
ghost use Rattle.meaning.specs.Ewah.{ewah_rows};
ghost use Rattle.laws.specs.Laws.{EwahFacts};
ghost use Rattle.ewah_count.specs.Pads.{pads_set};

use ewah::marker;
use popcount::BLOCK;
use words::rows;

// How many bits of a clean run are set.
pub fn count_run(value: u32, clean: u32) -> u32
    requires { (value < 2) × (clean ≤ most_clean) }
    ensures { result ≡ ones 32 (replicate clean (fill 32 value)) }
{
    clean * (value * 32)
}

// A way to count the set bits of dirty words.
pub trait CountsWords {
    fn count_words(ws: &[u32]) -> u32
        requires { length ws.now ≤ most_segments }
        ensures { result ≡ ones 32 ws.now };
}

// The library's. Most markers have no dirty words, or fewer than a block.
pub struct InBlocks;

impl CountsWords for InBlocks {
    fn count_words(ws: &[u32]) -> u32 {
        if ws.len() == 0 {
            return 0;
        }
        if ws.len() < BLOCK {
            return popcount::count_each(ws);
        }
        popcount::count(ws)
    }
}

// How many pad bits of the last segment are set, where `last` is its marker: those of a run of ones. A dirty word sets
// none.
pub fn pads_set(last: u32, rows: u32) -> u32
    requires { rows ≤ most_rows }
    ensures { result ≡ pads_set rows last }
{
    let m = marker::read(last);
    if 0 < m.dirty {
        return 0;
    }
    m.value * (rows::segment_count::<32>(rows) * 32 - rows)
}

// How many bits of the segments are set, and the marker of the last of them.
#[derive(Clone, Copy)]
pub struct Counted {
    pub set: u32,
    pub last: u32,
}

// The walk ends with the marker of the last segment.
pub fn count_segments<C: CountsWords>(body: &[u32], rows: u32) -> Counted
    requires { (rows ≤ most_rows) × EwahFacts rows body.now }
    ensures { result.set ≡ count_below rows (ewah_rows body.now) + pads_set rows result.last }
{
    let mut set = 0;
    let mut at = 0;
    let mut left = rows::segment_count::<32>(rows);
    let mut last = 0;
    // Kept: by `Markers` a marker with no dirty words takes 26 instructions, and 19 as it is.
    while 0 < left {
        last = body[at];
        let m = marker::read(last);
        let from = at + 1;
        let next = from + m.dirty as usize;
        set += count_run(m.value, m.clean) + C::count_words(&body[from..next]);
        left = left - m.clean - m.dirty;
        at = next;
    }
    Counted { set, last }
}

// How many rows are set.
pub fn count(body: &[u32], rows: u32) -> u32
    requires { (rows ≤ most_rows) × EwahFacts rows body.now }
    ensures { result ≡ count_below rows (ewah_rows body.now) }
{
    let counted = count_segments::<InBlocks>(body, rows);
    counted.set - pads_set(counted.last, rows)
}
