// The rows of a column that have one value: how many they are, and up to which row there are so many of them.
ghost use Rattle.std.specs.Prelude.{◌≡◌, ◌≤◌, ◌<◌, ◌^◌};
ghost use Rattle.meaning.specs.Rows.{count_below};
ghost use Rattle.meaning.specs.Index.{row_count};
ghost use Rattle.column_meaning.specs.Columns.{slice_count};
ghost use Rattle.ranks.specs.Frames.{Column};
ghost use Rattle.ranks.specs.Found.{rows_level, Scanned, CutAt};

use blocks::next;
use meaning::{BLOCK_WORDS, Ranking, SHORT_NAMED};
use pivots::{compare, count, place};
use walk::query::ENDED;
use walk::survey;
use words::frame::Frame;

// How many rows were counted, and, if these are at least as many as were to be found, the row behind the last of those.
// Kept: of the two callers one asks for the count alone and the other for the row alone; a Result gives each an arm that never comes.
#[derive(Clone, Copy)]
struct Found {
    count: u32,
    row: u32,
}

// Of the rows that exist and have the value, up to the block in which there are `most` of them. Which rows have it is the same for both
// orders.
fn scan(index: &[u32], list: &[u32], value: u32, most: u32) -> Found
    requires column { Column index.now list.now }
    requires value_bound { value < 2 ^ slice_count list.now }
    ensures { Scanned index.now list.now value most result.count result.row }
{
    let f = Frame::of(contents::format(index), contents::rows(index));
    let format = f.format;
    let mut short = [ENDED; SHORT_NAMED];
    let cursors = &mut short[..list.len()];
    survey::open(format, index, list, cursors);
    let mut x: [u32; BLOCK_WORDS] = [0; BLOCK_WORDS];
    let mut total: u32 = 0;
    let mut run = false;
    let mut o: u32 = 0;
    // Kept: a turn goes on by a block or a run, however long that is; a `for` has no such step.
    while o < f.segments {
        let s = next::next(format, index, list, cursors, &mut x, o, f.segments, run);
        let mask = f.mask(o + s.n);
        let told = compare::split(Ranking::Largest, &x, list.len() - 1, value);
        let same = told.same;
        let c = count::count(same, s.n, s.even, mask);
        let sum = total + c;
        if most <= sum {
            let behind = place::place(same, s.n, s.even, f.width, most - total);
            let from = o * f.width;
            let row = from + behind;
            return Found { count: sum, row };
        }
        total = sum;
        run = s.even;
        o += s.n;
    }
    Found {
        count: total,
        row: 0,
    }
}

// How many rows exist and have the value: asked for more than there can be, the scan never ends early.
pub fn count(index: &[u32], list: &[u32], value: u32) -> u32
    requires column { Column index.now list.now }
    requires value_bound { value < 2 ^ slice_count list.now }
    ensures { result ≡ count_below (row_count index.now)
        (rows_level index.now list.now value) }
{
    scan(index, list, value, 0xFFFF_FFFF).count
}

// The row where those that exist and have the value are cut: just `take` of them come before it.
pub fn cut(index: &[u32], list: &[u32], value: u32, take: u32) -> u32
    requires column { Column index.now list.now }
    requires value_bound { (value < 2 ^ slice_count list.now)
        × (take ≤ count_below (row_count index.now) (rows_level index.now list.now value)) }
    ensures { CutAt index.now list.now value take result }
{
    scan(index, list, value, take).row
}
