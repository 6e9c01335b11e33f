// The k largest or smallest rows of a column of a sound index, as a body: what is left to be refused, every 8 before any 11 before 9, and
// the answer.
ghost use Rattle.std.specs.Prelude.{◌≡◌, false, length};
ghost use Rattle.meaning.specs.Limits.{most_column};
ghost use Rattle.meaning.specs.Rows.{count_below};
ghost use Rattle.meaning.specs.Refusal.{refuse_if};
ghost use Rattle.meaning.specs.Index.{format_of, row_count};
ghost use Rattle.meaning.specs.Answer.{write};
ghost use Rattle.column_meaning.specs.Columns as meaning;
ghost use Rattle.laws.specs.Laws.{IndexFacts};
ghost use Rattle.answers.specs.Told.{outcome_of, Wrote};

use crate::ask;
use answers::answer;
use answers::refusal::Refusal;
use body_read::count;
use meaning::{MOST_COLUMN, Ranking};
use ranks::write;

// How many rows of a column exist.
fn existing(index: &[u32], list: &[u32]) -> u32
    requires index_facts { IndexFacts index.now }
    requires list_value { meaning.bad_column index.now most_column list.now ≡ false }
    ensures { result ≡ count_below (row_count index.now)
        (meaning.existing index.now list.now) }
{
    count::count(
        contents::format(index),
        contents::body(index, list[0]),
        contents::rows(index),
    )
}

// What is refused of k rows, whichever come first.
fn check_rank(index: &[u32], list: &[u32], k: u32) -> Result<(), Refusal>
    requires { IndexFacts index.now }
    ensures { outcome_of result ≡ refuse_if (meaning.bad_rank index.now list.now k) 8 0 0
        (meaning.strays index.now list.now) }
{
    if ask::column_is_bad(index, list, MOST_COLUMN) {
        return Err(answer::bad_argument());
    }
    if existing(index, list) < k {
        return Err(answer::bad_argument());
    }
    column::strays(index, list)
}

// Of a column in which at least k rows exist; 9 where the answer does not fit.
fn write_ranked(
    op: Ranking,
    index: &[u32],
    list: &[u32],
    k: u32,
    out: &mut [u32],
) -> Result<usize, Refusal>
    requires index_facts { IndexFacts index.now }
    requires k_value { meaning.bad_rank index.now list.now k ≡ false }
    ensures { Wrote (write (format_of index.now) (row_count index.now)
        (meaning.ranked_rows index.now op list.now k) (length out.old))
        result out.old out.new }
{
    let need = write::write(op, index, list, k, out);
    if out.len() < need {
        return Err(answer::no_room(need as u64));
    }
    Ok(need)
}

// Of the column that a list names.
pub fn ranked(
    op: Ranking,
    index: &[u32],
    list: &[u32],
    k: u32,
    out: &mut [u32],
) -> Result<usize, Refusal>
    requires { IndexFacts index.now }
    ensures { Wrote (meaning.ask_ranked index.now op list.now k (length out.old))
        result out.old out.new }
{
    check_rank(index, list, k)?;
    write_ranked(op, index, list, k, out)
}
