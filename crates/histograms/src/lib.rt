// The histogram of a list: for each number, how many rows exactly so many of the list have, stretch by stretch.
#![tactic(auto)]

ghost use Rattle.std.specs.Prelude.{◌≡◌, map, ℕ, ◌+◌, ◌≤◌, ◌<◌, length, get_or};
ghost use Rattle.meaning.specs.Limits.{most_rows, most_named, histogram_counts, most_segments};
ghost use Rattle.meaning.specs.Format as format;
ghost use Rattle.meaning.specs.Format.{rows_of};
ghost use Rattle.meaning.specs.declared.Format.{Format};
ghost use Rattle.meaning.specs.Index.{format_of, row_count};
ghost use Rattle.meaning.specs.Question.{histogram_of};
ghost use Rattle.counters.specs.Counters.{count_at};
ghost use Rattle.merge.specs.Merges.{Walkable, bodies_of};
ghost use Rattle.histograms.specs.Histograms.{StretchCounted};

use ewah::cursor::Cursor;
use meaning::{HISTOGRAM_COUNTS, MOST_NAMED, SHORT_NAMED};
use walk::query::ENDED;
use walk::survey;
use walk::survey::Survey;
use words::bits;
use words::frame::Frame;

// The numbers with the rows of a stretch counted in, of segments of that width, of whose last one the mask has the
// rows.
fn count_stretch(counts: &mut [u32; HISTOGRAM_COUNTS], s: Survey, mask: u32, width: u32)
    requires { (s.ones + s.dirty ≤ most_named) × (1 ≤ s.least) × (s.least ≤ most_segments) × (width ≤ 32)
        × (length counts.old ≡ histogram_counts)
        × ((c : ℕ) → c < histogram_counts → get_or counts.old c 0 ≤ most_rows)
        × ((j : ℕ) → j < 32 → count_at s.planes j ≤ s.dirty) }
    ensures { (F : Format) → width ≡ format.width F
        → StretchCounted F counts.old s mask counts.new }
{
    if s.dirty != 0 {
        counters::add_to_histogram(counts, s.planes, s.ones, s.dirty, mask);
        return;
    }
    counts[s.ones as usize] += (s.least - 1) * width + bits::count(mask);
}

// For each c from 0 to the most that a list can name the number of rows that exactly c of the list have. There is a cursor for
// each of the list's places.
fn histogram_over(index: &[u32], list: &[u32], cursors: &mut [Cursor]) -> [u32; HISTOGRAM_COUNTS]
    requires walkable { Walkable index.now list.now }
    requires cursors_len { length cursors.old ≡ length list.now }
    ensures { result ≡ histogram_of (row_count index.now)
        (map (rows_of (format_of index.now)) (bodies_of index.now list.now)) }
{
    let frame = Frame::of(contents::format(index), contents::rows(index));
    survey::open(frame.format, index, list, cursors);
    let mut s = survey::all(cursors);
    let mut counts = [0; HISTOGRAM_COUNTS];
    let mut o: u32 = 0;
    // Kept: a turn goes on by a stretch, however long that is; a `for` has no such step.
    while o < frame.segments {
        let end = o + s.least;
        let mask = frame.mask(end);
        count_stretch(&mut counts, s, mask, frame.width);
        s = survey::advance(frame.format, index, list, cursors, s.least);
        o = end;
    }
    counts
}

// The same, with as few cursors as will do: less is cleared for a short list.
pub fn histogram(index: &[u32], list: &[u32]) -> [u32; HISTOGRAM_COUNTS]
    requires { Walkable index.now list.now }
    ensures { result ≡ histogram_of (row_count index.now)
        (map (rows_of (format_of index.now)) (bodies_of index.now list.now)) }
{
    if list.len() <= SHORT_NAMED {
        let mut short = [ENDED; SHORT_NAMED];
        return histogram_over(index, list, &mut short[..list.len()]);
    }
    let mut long = [ENDED; MOST_NAMED];
    histogram_over(index, list, &mut long[..list.len()])
}
