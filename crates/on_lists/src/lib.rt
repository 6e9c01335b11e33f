// The public calls on a list of 1 to `MOST_NAMED` bitmap numbers, repeats included, each counted as often as it is named.
// `zvonurel` passes them on, and says what every `ensures` settles.
#![tactic(auto)]

ghost use Rattle.std.specs.Prelude.{◌≡◌, length};
ghost use Rattle.meaning.specs.Answer as meaning;
ghost use Rattle.laws.specs.Demands.{Asked, ThresholdDemand};
ghost use Rattle.answers.specs.Told.{answered_of, outcome_of, Reported};

use answers::answer::Report;
use answers::refusal::Refusal;
use meaning::HISTOGRAM_COUNTS;
use on_bitmaps::check;

// The rows that at least t of the list have, as a body in canonical form.
pub fn threshold(index: &[u32], list: &[u32], t: u32, out: &mut [u32]) -> Result<Report, Refusal>
    ensures reported { Reported index.now list.now
        (meaning.threshold index.now list.now t (length out.old))
        result out.old out.new }
    ensures threshold_demand { Asked index.now list.now t
        → ThresholdDemand index.now list.now t out.old
        (answered_of result out.new) out.new }
{
    check(index)?;
    lists::ask::threshold(index, list, t, out)
}

// The rows at whose number the table has a 1, as a body in canonical form.
pub fn symmetric(
    index: &[u32],
    list: &[u32],
    table: &[u32],
    out: &mut [u32],
) -> Result<Report, Refusal>
    ensures { Reported index.now list.now
        (meaning.symmetric index.now list.now table.now (length out.old))
        result out.old out.new }
{
    check(index)?;
    lists::ask::symmetric(index, list, table, out)
}

// For each c from 0 to `MOST_NAMED` the number of rows that exactly c of the list have.
pub fn histogram(index: &[u32], list: &[u32]) -> Result<[u32; HISTOGRAM_COUNTS], Refusal>
    ensures { outcome_of result ≡ meaning.histogram index.now list.now }
{
    check(index)?;
    lists::ask::histogram(index, list)
}
