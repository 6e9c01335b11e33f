// What an operation makes of two columns of a sound index, as a new index.
ghost use Rattle.pairs.specs.Passes.{Columns};
ghost use Rattle.column_pair.specs.Written.{PairWritten};

use meaning::{ENTRY_WORDS, HEAD_WORDS, MOST_STARTS, Pairing};
use new_index::layout;
use pairs::pass;

// The words that the index of n slices takes; it is written where there is room for it, and else nothing is. Bodies are measured first,
// since each lies behind those before it.
pub fn write(
    op: Pairing,
    index: &[u32],
    first: &[u32],
    second: &[u32],
    n: usize,
    out: &mut [u32],
) -> usize
    requires { Columns index.now first.now second.now n }
    ensures { PairWritten op index.now first.now second.now n
        out.old out.new result }
{
    let count = n + 1;
    let nowhere: [usize; MOST_STARTS] = [0; MOST_STARTS];
    let measured = pass::pass(op, index, first, second, n, out, &nowhere, false);
    let starts = layout::starts(&measured[..count], HEAD_WORDS + ENTRY_WORDS * count);
    let need = starts[count];
    if contents::room(out.len()) < need {
        return need;
    }
    let rows = contents::rows(index);
    layout::write_contents(contents::format(index), out, rows, &starts, count);
    pass::pass(op, index, first, second, n, out, &starts, true);
    need
}
