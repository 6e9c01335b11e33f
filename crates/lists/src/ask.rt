// Questions over a list of bitmaps of a sound index: what is left to be refused, and the answer.
ghost use Rattle.std.specs.Prelude.{◌≡◌, ◌≤◌, length, nat_le};
ghost use Rattle.std.specs.List.{list_any};
ghost use Rattle.meaning.specs.Limits.{head_words};
ghost use Rattle.laws.specs.Laws.{IndexFacts};
ghost use Rattle.meaning.specs.Answer as meaning;
ghost use Rattle.answers.specs.Told.{outcome_of, Reported};

use answers::answer;
use answers::answer::Report;
use answers::refusal::Refusal;
use meaning::{HISTOGRAM_COUNTS, MOST_NAMED};
use merge::evaluate::Operation;

// Whether some number is n or more.
fn any_from(list: &[u32], n: u32) -> bool
    ensures { result ≡ list_any (λ k. nat_le n k) list.now }
{
    list.iter().any(|k| n <= *k)
}

// Whether some number names no bitmap.
pub fn names_missing(index: &[u32], list: &[u32]) -> bool
    requires { head_words ≤ length index.now }
    ensures { result ≡ meaning.any_bad index.now list.now }
{
    any_from(list, contents::bitmaps(index))
}

// Whether a list is empty, too long, or names a bitmap that is not there.
fn list_is_bad(index: &[u32], list: &[u32]) -> bool
    requires { head_words ≤ length index.now }
    ensures { result ≡ meaning.bad_list index.now list.now }
{
    if list.is_empty() {
        return true;
    }
    if MOST_NAMED < list.len() {
        return true;
    }
    names_missing(index, list)
}

// The rows that at least t of the list have; 8 for a bad list, or where t is 0 or above the list's length.
pub fn threshold(index: &[u32], list: &[u32], t: u32, out: &mut [u32]) -> Result<Report, Refusal>
    requires { IndexFacts index.now }
    ensures { Reported index.now list.now
        (meaning.ask_threshold index.now list.now t (length out.old))
        result out.old out.new }
{
    if list_is_bad(index, list) {
        return Err(answer::bad_argument());
    }
    if t == 0 {
        return Err(answer::bad_argument());
    }
    if list.len() < contents::wide(t) {
        return Err(answer::bad_argument());
    }
    fit::write_answer(index, list, Operation::AtLeast(t), &index[0..0], out)
}

// Whether a table has an entry other than 0 and 1.
fn entry_is_bad(table: &[u32]) -> bool
    ensures { result ≡ meaning.bad_entry table.now }
{
    any_from(table, 2)
}

// The rows at whose number the table has a 1; 8 for a bad list, or unless the table has one entry more than the list, each 0 or 1.
pub fn symmetric(
    index: &[u32],
    list: &[u32],
    table: &[u32],
    out: &mut [u32],
) -> Result<Report, Refusal>
    requires { IndexFacts index.now }
    ensures { Reported index.now list.now
        (meaning.ask_symmetric index.now list.now table.now (length out.old))
        result out.old out.new }
{
    if list_is_bad(index, list) {
        return Err(answer::bad_argument());
    }
    if table.len() != list.len() + 1 {
        return Err(answer::bad_argument());
    }
    if entry_is_bad(table) {
        return Err(answer::bad_argument());
    }
    fit::write_answer(index, list, Operation::Table, table, out)
}

// The histogram of the list; 8 for a bad one.
pub fn histogram(index: &[u32], list: &[u32]) -> Result<[u32; HISTOGRAM_COUNTS], Refusal>
    requires { IndexFacts index.now }
    ensures { outcome_of result ≡ meaning.ask_histogram index.now list.now }
{
    if list_is_bad(index, list) {
        return Err(answer::bad_argument());
    }
    Ok(histograms::histogram(index, list))
}
