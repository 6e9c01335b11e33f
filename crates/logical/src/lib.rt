// Logical questions of one or two bitmaps of a sound index: each is a question over a list, refused with 8 where a
// bitmap is not there.
#![tactic(auto)]

ghost use Rattle.std.specs.Prelude.{◌≡◌, Bool, List, [], ℕ, ◌≤◌, length};
ghost use Rattle.meaning.specs.Limits.{most_named};
ghost use Rattle.meaning.specs.Refusal.{Outcome, refuse_if};
ghost use Rattle.meaning.specs.Index.{format_of, row_count};
ghost use Rattle.meaning.specs.Question.{held};
ghost use Rattle.laws.specs.Laws.{IndexFacts};
ghost use Rattle.meaning.specs.Answer as meaning;
ghost use Rattle.merge.specs.Operations.{chosen};
ghost use Rattle.answers.specs.Told.{Wrote};
ghost use Rattle.logical.specs.Combined.{combined};

use answers::answer;
use answers::refusal::Refusal;
use lists::ask;
use merge::evaluate::Operation;

// The rows at whose number of holders the operation says yes, whichever set p they are; 8 where the list names a
// bitmap that is not there, whichever test `bad` says so. A logical question reports its words alone, and no stretches.
fn ask_list(index: &[u32], list: &[u32], op: Operation, out: &mut [u32]) -> Result<usize, Refusal>
    requires index_facts { IndexFacts index.now }
    requires in_bounds { (1 ≤ length list.now) × (length list.now ≤ most_named) }
    ensures { (p : ℕ → Bool) (bad : Bool)
        → meaning.any_bad index.now list.now ≡ bad
        → ((i : ℕ) → chosen op [] (held (meaning.named index.now list.now) i) ≡ p i)
        → Wrote (refuse_if bad 8 0 0
        (meaning.write (format_of index.now) (row_count index.now) p (length out.old)))
        result out.old out.new }
{
    if ask::names_missing(index, list) {
        return Err(answer::bad_argument());
    }
    let report = fit::write_answer(index, list, op, &index[0..0], out)?;
    Ok(report.words)
}

// What is asked of two bitmaps.
#[derive(Clone, Copy)]
pub enum Logical {
    And,
    Or,
    Xor,
    AndNot,
}

// Of two bitmaps. Of AND NOT the second is named twice, so that only a row of the first alone has the number 1.
pub fn pair(op: Logical, index: &[u32], j: u32, k: u32, out: &mut [u32]) -> Result<usize, Refusal>
    requires { IndexFacts index.now }
    ensures { Wrote (meaning.ask_logical index.now (combined op) j k (length out.old))
        result out.old out.new }
{
    match op {
        Logical::And => ask_list(index, &[j, k], Operation::AtLeast(2), out),
        Logical::Or => ask_list(index, &[j, k], Operation::AtLeast(1), out),
        Logical::Xor => ask_list(index, &[j, k], Operation::Exactly(1), out),
        Logical::AndNot => ask_list(index, &[j, k, k], Operation::Exactly(1), out),
    }
}

// The rows that k has not.
pub fn not(index: &[u32], k: u32, out: &mut [u32]) -> Result<usize, Refusal>
    requires { IndexFacts index.now }
    ensures { Wrote (meaning.ask_not index.now k (length out.old))
        result out.old out.new }
{
    ask_list(index, &[k], Operation::Exactly(0), out)
}
