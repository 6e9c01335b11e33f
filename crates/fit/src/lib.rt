// The answer of a question over a list, into a buffer: it is measured first, unless the buffer surely has room.
#![tactic(auto)]

ghost use Rattle.std.specs.Prelude.{◌≡◌, true, List, ℕ, ◌≤◌, length};
ghost use Rattle.meaning.specs.Limits.{most_named_words};
ghost use Rattle.meaning.specs.Question.{total_words};
ghost use Rattle.laws.specs.Laws.{IndexFacts};
ghost use Rattle.meaning.specs.Answer as meaning;
ghost use Rattle.walk.specs.Queries.{Listed};
ghost use Rattle.merge.specs.Merges.{Walkable, Mergeable, answer_body};
ghost use Rattle.answers.specs.Told.{Reported};

use answers::answer;
use answers::answer::Report;
use answers::refusal::Refusal;
use body_write::bound;
use merge::engine;
use merge::evaluate::Operation;

// The words of the named bodies, each as often as it is named.
fn named_words(index: &[u32], list: &[u32]) -> usize
    requires index_facts { IndexFacts index.now }
    requires listed { Listed index.now list.now }
    ensures { (result ≡ total_words (meaning.named_bodies index.now list.now))
        × (result ≤ most_named_words) }
{
    let mut total = 0;
    for k in list {
        total += contents::words(index, *k);
    }
    total
}

// Whether a buffer surely has room for the answer, whatever is asked of the list: for any body of the index's rows, or
// for two words for each word of the named bodies.
fn surely_fits(index: &[u32], list: &[u32], room: usize) -> bool
    requires { Walkable index.now list.now }
    ensures { result ≡ true → (table : List ℕ) (op : Operation)
        → length (answer_body index.now list.now op table) ≤ room }
{
    bound::most_words(contents::format(index), contents::rows(index)) <= room
        || 2 * named_words(index, list) <= room
}

// The answer, into a buffer with room for it.
fn write_fitting(
    index: &[u32],
    list: &[u32],
    op: Operation,
    table: &[u32],
    out: &mut [u32],
) -> Result<Report, Refusal>
    requires mergeable { Mergeable index.now list.now op table.now }
    requires table_in_bounds { length (answer_body index.now list.now op table.now) ≤ length out.old }
    ensures { Reported index.now list.now
        (meaning.fits (length out.old)
        (answer_body index.now list.now op table.now))
        result out.old out.new }
{
    Ok(engine::merge(index, list, op, table, out, true))
}

// The answer, or that it does not fit. It is measured first, unless the buffer surely has room.
pub fn write_answer(
    index: &[u32],
    list: &[u32],
    op: Operation,
    table: &[u32],
    out: &mut [u32],
) -> Result<Report, Refusal>
    requires { Mergeable index.now list.now op table.now }
    ensures { Reported index.now list.now
        (meaning.fits (length out.old)
        (answer_body index.now list.now op table.now))
        result out.old out.new }
{
    if surely_fits(index, list, out.len()) {
        return write_fitting(index, list, op, table, out);
    }
    let need = engine::merge(index, list, op, table, out, false).words;
    if out.len() < need {
        return Err(answer::no_room(need as u64));
    }
    write_fitting(index, list, op, table, out)
}
