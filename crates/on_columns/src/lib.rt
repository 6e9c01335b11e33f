// The public calls on columns: a list names existence first, then the slices, the lowest first; a number may be named
// twice. `zvonurel` passes them on, and says what every `ensures` settles.
#![tactic(auto)]

ghost use Rattle.std.specs.Prelude.{◌≡◌, length};
ghost use Rattle.column_meaning.specs.Columns as columns;
ghost use Rattle.meaning.specs.declared.Ranking.TheVariants.{Largest, Smallest};
ghost use Rattle.laws.specs.RankLaws.{RankAsked, RankDemand};
ghost use Rattle.answers.specs.Told.{outcome_of, written_of, Wrote};

use answers::refusal::Refusal;
use meaning::{Pairing, Ranking};
use on_bitmaps::check;

// The value at a row of the column that a list of `LEAST_COLUMN` to `MOST_VALUE_COLUMN` numbers names.
pub fn value(index: &[u32], column: &[u32], row: u32) -> Result<u64, Refusal>
    ensures { outcome_of result ≡ columns.value index.now column.now row }
{
    check(index)?;
    columns::ask::value(index, column, row)
}

// The same of a signed column, which is two's complement with the top slice as its sign.
pub fn signed_value(index: &[u32], column: &[u32], row: u32) -> Result<i64, Refusal>
    ensures { outcome_of result ≡ columns.signed_value index.now column.now row }
{
    check(index)?;
    columns::ask::signed_value(index, column, row)
}

// ---- two columns of up to `MOST_COLUMN` numbers each, as a new index of the same format: the rows that exist in both,
// then the slices

// What an operation makes of them.
fn pair(
    op: Pairing,
    index: &[u32],
    first: &[u32],
    second: &[u32],
    out: &mut [u32],
) -> Result<usize, Refusal>
    ensures { Wrote (columns.pair index.now op first.now second.now
        (length out.old)) result out.old out.new }
{
    check(index)?;
    columns::pair::pair(op, index, first, second, out)
}

// The sums, with one slice more than the wider column has.
pub fn sum(index: &[u32], first: &[u32], second: &[u32], out: &mut [u32]) -> Result<usize, Refusal>
    ensures { Wrote (columns.sum index.now first.now second.now
        (length out.old)) result out.old out.new }
{
    pair(Pairing::Sum, index, first, second, out)
}

// The differences, the first less the second, as a signed column of one slice more than the wider has.
pub fn signed_difference(
    index: &[u32],
    first: &[u32],
    second: &[u32],
    out: &mut [u32],
) -> Result<usize, Refusal>
    ensures { Wrote (columns.signed_difference index.now first.now second.now
        (length out.old)) result out.old out.new }
{
    pair(Pairing::Difference, index, first, second, out)
}

// The smaller of both values, with as many slices as the wider column has.
pub fn smaller(
    index: &[u32],
    first: &[u32],
    second: &[u32],
    out: &mut [u32],
) -> Result<usize, Refusal>
    ensures { Wrote (columns.smaller index.now first.now second.now
        (length out.old)) result out.old out.new }
{
    pair(Pairing::Smaller, index, first, second, out)
}

// The differences, and 0 where they are negative, with as many slices as the wider column has.
pub fn difference_or_zero(
    index: &[u32],
    first: &[u32],
    second: &[u32],
    out: &mut [u32],
) -> Result<usize, Refusal>
    ensures { Wrote (columns.difference_or_zero index.now first.now second.now
        (length out.old)) result out.old out.new }
{
    pair(Pairing::DifferenceOrZero, index, first, second, out)
}

// ---- a column of up to `MOST_COLUMN` numbers: its k rows of largest or smallest value, as a body in canonical form, of the index's
// format; of equal values the lowest rows come first

// The k rows whose values come first.
fn ranked(
    op: Ranking,
    index: &[u32],
    column: &[u32],
    k: u32,
    out: &mut [u32],
) -> Result<usize, Refusal>
    ensures wrote { Wrote (columns.ranked index.now op column.now k (length out.old))
        result out.old out.new }
    ensures rank_demand { RankAsked index.now column.now k
        → RankDemand op index.now column.now k out.old
        (written_of result out.new) out.new }
{
    check(index)?;
    columns::rank::ranked(op, index, column, k, out)
}

// The k rows with the largest values.
pub fn largest(index: &[u32], column: &[u32], k: u32, out: &mut [u32]) -> Result<usize, Refusal>
    ensures wrote { Wrote (columns.largest index.now column.now k (length out.old))
        result out.old out.new }
    ensures rank_demand { RankAsked index.now column.now k
        → RankDemand Largest index.now column.now k out.old
        (written_of result out.new) out.new }
{
    ranked(Ranking::Largest, index, column, k, out)
}

// The k rows with the smallest values.
pub fn smallest(index: &[u32], column: &[u32], k: u32, out: &mut [u32]) -> Result<usize, Refusal>
    ensures wrote { Wrote (columns.smallest index.now column.now k (length out.old))
        result out.old out.new }
    ensures rank_demand { RankAsked index.now column.now k
        → RankDemand Smallest index.now column.now k out.old
        (written_of result out.new) out.new }
{
    ranked(Ranking::Smallest, index, column, k, out)
}
