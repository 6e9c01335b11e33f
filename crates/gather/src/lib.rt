// The next segments of every place of a list, as rows of words.
// Calls here have a `requires`; the public ones of `zvonurel` test their input first.
#![tactic(auto)]

ghost use Rattle.std.specs.Prelude.{true, false, ◌≡◌, ℕ, ◌*◌, ◌≤◌, ◌<◌, length};
ghost use Rattle.meaning.specs.Limits.{most_value_column, block_segments, block_words};
ghost use Rattle.meaning.specs.Index.{format_of, bitmap_count, body_at};
ghost use Rattle.laws.specs.Laws.{HeadFacts, EntryFacts};
ghost use Rattle.ewah.specs.Cursors.{left_of};
ghost use Rattle.block_read.specs.Taken.{RowTaken};
ghost use Rattle.walk.specs.Queries.{cursor_of, Listed};
ghost use Rattle.gather.specs.Gathered.{StandsBefore, StandingBefore, Gathered};

use bodies::cursor;
use ewah::cursor::Cursor;
use meaning::{BLOCK_SEGMENTS, BLOCK_WORDS, Format};

// The fewest segments that one of the places has left in its piece; no place has fewer.
pub fn nearest(cursors: &[Cursor]) -> u32
    ensures { (k : ℕ) → k < length cursors.now → result ≤ left_of (cursor_of cursors.now k).piece }
{
    let mut least = u32::MAX;
    for c in cursors {
        least = least.min(cursor::left(*c));
    }
    least
}

// The cursor of place k, whose bitmap has the number b, goes n segments on; row k of x becomes their words.
fn take_place(
    format: Format,
    index: &[u32],
    b: u32,
    c: &mut Cursor,
    k: usize,
    n: u32,
    even: bool,
    x: &mut [u32; BLOCK_WORDS],
)
    requires head_facts { HeadFacts index.now }
    requires entry_facts { EntryFacts index.now }
    requires stands_before { StandsBefore format (body_at index.now b) c.old n }
    requires b_bound { (b < bitmap_count index.now) × (k < most_value_column) × (length x.old ≡ block_words) × (1 ≤ n)
        × (even ≡ true → n ≤ left_of c.old.piece) × (even ≡ false → n ≤ block_segments) }
    ensures { RowTaken format (body_at index.now b) c.old n even
        x.old (k * block_segments) x.new c.new }
{
    let from = k * BLOCK_SEGMENTS;
    let row = &mut x[from..from + BLOCK_SEGMENTS];
    let d = block_read::take(format, contents::body(index, b), *c, row, n, even);
    // Part by part, as in `walk::survey`.
    c.piece = d.piece;
    c.next = d.next;
    c.dirty = d.dirty;
}

// Every cursor goes n segments on in its body, which has the index's format; row k of x becomes the words of place k.
pub fn gather(
    format: Format,
    index: &[u32],
    list: &[u32],
    cursors: &mut [Cursor],
    n: u32,
    even: bool,
    x: &mut [u32; BLOCK_WORDS],
)
    requires format_value { format ≡ format_of index.now }
    requires head_facts { HeadFacts index.now }
    requires entry_facts { EntryFacts index.now }
    requires listed { Listed index.now list.now }
    requires standing_before { StandingBefore (format_of index.now) index.now list.now cursors.old n }
    requires cursors_len { (length list.now ≤ length cursors.old) × (length x.old ≡ block_words)
        × (length list.now ≤ most_value_column) × (1 ≤ n)
        × (even ≡ true → (k : ℕ) → k < length list.now → n ≤ left_of (cursor_of cursors.old k).piece)
        × (even ≡ false → n ≤ block_segments) }
    ensures { Gathered (format_of index.now) index.now list.now
        cursors.old n even x.old cursors.new x.new }
{
    for k in 0..list.len() {
        take_place(format, index, list[k], &mut cursors[k], k, n, even, x);
    }
}
