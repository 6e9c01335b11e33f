// What an operation makes of two columns of a sound index, as a new index: what is left to be refused, every 8 before any 11 before
// 9, and the answer.
ghost use Rattle.std.specs.Prelude.{◌≡◌, false, ◌≤◌, length};
ghost use Rattle.meaning.specs.Limits.{most_column};
ghost use Rattle.meaning.specs.Refusal.{◌then◌};
ghost use Rattle.column_meaning.specs.Columns as meaning;
ghost use Rattle.laws.specs.Laws.{IndexFacts};
ghost use Rattle.answers.specs.Told.{Wrote};

use crate::ask;
use answers::answer;
use answers::refusal::Refusal;
use column_pair::write;
use meaning::{MOST_COLUMN, Pairing};

// How many slices the wider of two columns has.
fn wider(first: &[u32], second: &[u32]) -> usize
    requires { (1 ≤ length first.now) × (1 ≤ length second.now) }
    ensures { result ≡ meaning.wider first.now second.now }
{
    first.len().max(second.len()) - 1
}

// How many slices the answer has.
fn slices(op: Pairing, first: &[u32], second: &[u32]) -> usize
    requires in_bounds { (1 ≤ length first.now) × (1 ≤ length second.now) }
    requires first_len_bound { (length first.now ≤ most_column) × (length second.now ≤ most_column) }
    ensures { result ≡ meaning.pair_width op first.now second.now }
{
    let w = wider(first, second);
    match op {
        Pairing::Sum => w + 1,
        Pairing::Difference => w + 1,
        Pairing::Smaller => w,
        Pairing::DifferenceOrZero => w,
    }
}

// Of two columns with no stray row; 9 where the answer does not fit, or would be longer than an index may be.
fn write_pair(
    op: Pairing,
    index: &[u32],
    first: &[u32],
    second: &[u32],
    out: &mut [u32],
) -> Result<usize, Refusal>
    requires index_facts { IndexFacts index.now }
    requires first_value { meaning.bad_column index.now most_column first.now ≡ false }
    requires second_value { meaning.bad_column index.now most_column second.now ≡ false }
    ensures { Wrote (meaning.write_pair index.now op first.now second.now
        (length out.old)) result out.old out.new }
{
    let n = slices(op, first, second);
    let need = write::write(op, index, first, second, n, out);
    if contents::room(out.len()) < need {
        return Err(answer::no_room(need as u64));
    }
    Ok(need)
}

// The same where only the first column is known to have no stray row.
fn pair_second(
    op: Pairing,
    index: &[u32],
    first: &[u32],
    second: &[u32],
    out: &mut [u32],
) -> Result<usize, Refusal>
    requires index_facts { IndexFacts index.now }
    requires first_value { meaning.bad_column index.now most_column first.now ≡ false }
    requires second_value { meaning.bad_column index.now most_column second.now ≡ false }
    ensures { Wrote (meaning.strays index.now second.now then
        meaning.write_pair index.now op first.now second.now (length out.old))
        result out.old out.new }
{
    column::strays(index, second)?;
    write_pair(op, index, first, second, out)
}

// Of two columns that lists name.
pub fn pair(
    op: Pairing,
    index: &[u32],
    first: &[u32],
    second: &[u32],
    out: &mut [u32],
) -> Result<usize, Refusal>
    requires { IndexFacts index.now }
    ensures { Wrote (meaning.ask_pair index.now op first.now second.now
        (length out.old)) result out.old out.new }
{
    if ask::column_is_bad(index, first, MOST_COLUMN) {
        return Err(answer::bad_argument());
    }
    if ask::column_is_bad(index, second, MOST_COLUMN) {
        return Err(answer::bad_argument());
    }
    column::strays(index, first)?;
    pair_second(op, index, first, second, out)
}
