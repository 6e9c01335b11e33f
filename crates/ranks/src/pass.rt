// One pass that makes the body of the rows that come before the pivot, and of those that have its value and come before the cut.
ghost use Rattle.std.specs.Prelude.{true, false, ◌≡◌, ◌≤◌, ◌<◌, ◌^◌, ◌*◌, length};
ghost use Rattle.meaning.specs.Limits.{block_segments};
ghost use Rattle.meaning.specs.Segment.{segment_count};
ghost use Rattle.meaning.specs.Format.{width};
ghost use Rattle.meaning.specs.Index.{format_of, row_count};
ghost use Rattle.column_meaning.specs.Columns.{slice_count};
ghost use Rattle.ranks.specs.Frames.{Column};
ghost use Rattle.ranks.specs.Passes.{EndOf, Kept, Spelled, cut_body, Passed};

use blocks::choose::Step;
use blocks::next;
use body_write::writer;
use meaning::{BLOCK_SEGMENTS, BLOCK_WORDS, Ranking, SHORT_NAMED};
use pivots::compare;
use walk::query::ENDED;
use walk::survey;
use words::frame::Frame;
use words::{bits, rows};

// Up to where segments may be taken together from segment o on: the one that the cut is in goes by itself.
fn end_of(o: u32, at: u32, segments: u32) -> u32
    requires { (o < segments) × (at ≤ segments) }
    ensures { EndOf o at segments result }
{
    if o < at {
        return at;
    }
    if o == at {
        return o + 1;
    }
    segments
}

// The bits of segment o that lie before the cut, which is at so many bits of segment `at`.
fn kept(o: u32, at: u32, low: u32) -> u32
    requires { low < 32 }
    ensures { Kept o at low result }
{
    if o < at {
        return 0xFFFF_FFFF;
    }
    if o == at {
        return bits::low_ones(low);
    }
    0
}

// The words as they are written: of a block's last segment the mask has the rows, and `full` is the word of one with all rows set.
fn spelled(words: [u32; BLOCK_SEGMENTS], s: Step, mask: u32, full: u32) -> [u32; BLOCK_SEGMENTS]
    requires { (1 ≤ s.n) × (s.even ≡ false → s.n ≤ block_segments) }
    ensures { Spelled words s.n s.even mask full result }
{
    if s.even {
        return words;
    }
    let last = s.n as usize - 1;
    let mut r = words;
    r[last] = rows::spelled(words[last], mask, full);
    r
}

// The body's words, counted, and written where `store` says so.
pub fn pass(
    op: Ranking,
    index: &[u32],
    list: &[u32],
    value: u32,
    cut: u32,
    out: &mut [u32],
    store: bool,
) -> usize
    requires column { Column index.now list.now }
    requires value_bound { (value < 2 ^ slice_count list.now)
        × (cut ≤ segment_count (width (format_of index.now)) (row_count index.now) * width (format_of index.now))
        × (store ≡ true → length (cut_body op index.now list.now value cut) ≤ length out.old) }
    ensures { Passed op index.now list.now value cut out.old out.new store result }
{
    let f = Frame::of(contents::format(index), contents::rows(index));
    let format = f.format;
    let at = cut / f.width;
    let low = cut % f.width;
    let mut short = [ENDED; SHORT_NAMED];
    let cursors = &mut short[..list.len()];
    survey::open(format, index, list, cursors);
    let mut x: [u32; BLOCK_WORDS] = [0; BLOCK_WORDS];
    let mut w = writer::start(format);
    let mut run = false;
    let mut o: u32 = 0;
    // Kept: a turn goes on by a block or a run, however long that is; a `for` has no such step.
    while o < f.segments {
        let end = end_of(o, at, f.segments);
        let s = next::next(format, index, list, cursors, &mut x, o, end, run);
        let mask = f.mask(o + s.n);
        let told = compare::split(op, &x, list.len() - 1, value);
        let rows = compare::taken(told, kept(o, at, low));
        let row = spelled(rows, s, mask, f.full);
        let len = block_write::row_length(s.n, s.even);
        let v = block_write::emit_apart(format, out, w, &row[..len], s.n, s.even, mask, store);
        w = v;
        run = s.even;
        o += s.n;
    }
    w.used
}
