// The nth set row, in one pass: markers, and many dirty words at once, are passed by their counts until some have it.
ghost use Rattle.std.specs.Prelude.{◌≡◌, ◌++◌, ◌*◌, ◌≤◌, ◌<◌, length, replicate};
ghost use Rattle.meaning.specs.Limits.{most_rows, most_segments, most_clean, most_dirty};
ghost use Rattle.meaning.specs.Segment.{has_row, ones, fill};
ghost use Rattle.meaning.specs.Ewah.{ewah_rows};
ghost use Rattle.laws.specs.Laws.{EwahFacts};
ghost use Rattle.meaning.specs.Answer.{ask_nth};
ghost use Rattle.laws.specs.Demands.{IsNth};
ghost use Rattle.answers.specs.Told.{found_of};
ghost use Rattle.ewah_nth.specs.Seeking.{SoughtIn};

use ewah::marker::Markers;
use ewah_count::count::{self, CountsWords, InBlocks};
use popcount::BLOCK;
use words::bits;

// How many words are passed at once by their count: whole blocks of the population count, and few enough that to go
// through them word by word, where they have the bit, takes little beside the counting.
const SKIP_WORDS: usize = 8 * BLOCK;

// The set bit of the words that has k set bits before it, as a row of theirs.
fn find(ws: &[u32], k: u32) -> u32
    requires { (length ws.now ≤ most_segments) × (k < ones 32 ws.now) }
    ensures { IsNth (length ws.now * 32) (has_row 32 ws.now) k result }
{
    let mut ahead = k;
    for i in 0..ws.len() {
        let here = bits::count(ws[i]);
        if ahead < here {
            return i as u32 * 32 + bits::nth(ws[i], ahead);
        }
        ahead -= here;
    }
    0
}

// What the segments of one marker say of a set row that is asked for: it is this row of theirs, or so many set rows are
// still to pass.
// Kept: a Result of two u32 would not say which is a row and which a number of rows to pass.
#[derive(Clone, Copy)]
pub enum Sought {
    Here(u32),
    Ahead(u32),
}

// The set bit of the words that has k set bits before it: SKIP_WORDS at a time are passed by their count, until some
// have it.
fn seek_words(ws: &[u32], k: u32) -> Sought
    requires { length ws.now ≤ most_dirty }
    ensures { SoughtIn ws.now k result }
{
    let mut ahead = k;
    let mut i = 0;
    while i < ws.len() {
        let end = (i + SKIP_WORDS).min(ws.len());
        let inside = popcount::count(&ws[i..end]);
        if ahead < inside {
            return Sought::Here(i as u32 * 32 + find(&ws[i..end], ahead));
        }
        ahead -= inside;
        i = end;
    }
    Sought::Ahead(ahead)
}

// The row of one marker's segments that has k set rows before it: the clean run is passed first, and then its dirty
// words: where they are few, all at once.
fn seek(value: u32, clean: u32, dirty: &[u32], k: u32) -> Sought
    requires { (value < 2) × (clean ≤ most_clean) × (length dirty.now ≤ most_dirty) }
    ensures { SoughtIn (replicate clean (fill 32 value) ++ dirty.now) k result }
{
    let run = count::count_run(value, clean);
    if k < run {
        return Sought::Here(k);
    }
    let ahead = k - run;
    if dirty.len() == 0 {
        return Sought::Ahead(ahead);
    }
    if SKIP_WORDS < dirty.len() {
        match seek_words(dirty, ahead) {
            Sought::Here(r) => return Sought::Here(clean * 32 + r),
            Sought::Ahead(j) => return Sought::Ahead(j),
        }
    }
    let here = InBlocks::count_words(dirty);
    if ahead < here {
        return Sought::Here(clean * 32 + find(dirty, ahead));
    }
    Sought::Ahead(ahead - here)
}

// The nth set row, from 0. Where the bit that is found lies past the last row it is a pad bit, and not so many rows are
// set.
pub fn nth(body: &[u32], rows: u32, n: u32) -> Option<u32>
    requires { (rows ≤ most_rows) × EwahFacts rows body.now }
    ensures { found_of result ≡ ask_nth rows (ewah_rows body.now) n }
{
    let mut behind = 0;
    let mut ahead = n;
    for (m, dirty) in Markers::of(body) {
        match seek(m.value, m.clean, dirty, ahead) {
            Sought::Here(r) => {
                let row = behind * 32 + r;
                return if row < rows { Some(row) } else { None };
            }
            Sought::Ahead(k) => ahead = k,
        }
        behind += m.clean + m.dirty;
    }
    None
}
