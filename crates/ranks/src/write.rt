// The body of the k rows: measured, and written where it fits.
ghost use Rattle.std.specs.Prelude.{◌≤◌};
ghost use Rattle.meaning.specs.Rows.{count_below};
ghost use Rattle.meaning.specs.Index.{row_count};
ghost use Rattle.column_meaning.specs.Columns.{existing};
ghost use Rattle.ranks.specs.Frames.{Column};
ghost use Rattle.ranks.specs.Passes.{RankWritten};

use crate::{pass, pivot, scan};
use body_write::bound;
use meaning::Ranking;

// The words that it takes; it is written where there is room for it, and else nothing is. It is measured first, unless the buffer has room
// for the longest body of so many rows.
pub fn write(op: Ranking, index: &[u32], list: &[u32], k: u32, out: &mut [u32]) -> usize
    requires column { Column index.now list.now }
    requires k_bound { k ≤ count_below (row_count index.now) (existing index.now list.now) }
    ensures { RankWritten op index.now list.now k out.old out.new result }
{
    let p = pivot::find(op, index, list, k);
    let row = scan::cut(index, list, p.value, p.take);
    if bound::most_words(contents::format(index), contents::rows(index)) <= out.len() {
        return pass::pass(op, index, list, p.value, row, out, true);
    }
    let need = pass::pass(op, index, list, p.value, row, out, false);
    if out.len() < need {
        return need;
    }
    pass::pass(op, index, list, p.value, row, out, true)
}
