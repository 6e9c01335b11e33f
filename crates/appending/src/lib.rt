// A batch for a writer whose state and buffer the caller keeps: what is refused, in order, and the answer.
#![tactic(auto)]

ghost use Rattle.std.specs.Prelude.{◌≡◌, Bool, ℕ, ◌≤◌, length};
ghost use Rattle.meaning.specs.Limits.{most_rows};
ghost use Rattle.answers.specs.Told.{Wrote, refusal};
ghost use Rattle.answers.specs.declared.refusal.Fault.TheVariants.{Mismatched};
ghost use Rattle.batches.specs.Append as batches;
ghost use Rattle.resume.specs.Resume.{PlaceOf, ResumedIs};
ghost use Rattle.appending.specs.Batched.{batch_of, behind, FoundIs};

use answers::answer;
use answers::refusal::{Fault, Refusal};
use batches::AppendState;
use meaning::MOST_ROWS;
use plain::compress;
use resume::Place;

// State and buffer do not belong together.
fn mismatched() -> Refusal
    ensures { result ≡ refusal Mismatched 0 }
{
    Refusal {
        fault: Fault::Mismatched,
        bitmap: 0,
        word: 0,
    }
}

// The writer of a body of so many rows, or that it is no canonical body of them.
fn find_in(body: &[u32], rows: u32) -> Option<Place>
    requires { rows ≤ most_rows }
    ensures { ResumedIs rows body.now result }
{
    match ewah::check::check(body, rows, 0, 0) {
        Err(_) => None,
        Ok(()) => resume::resume(body, rows),
    }
}

// The writer's place in its buffer, or that state and buffer do not belong together.
fn find(state: AppendState, out: &[u32]) -> Option<Place>
    ensures { FoundIs state out.now result }
{
    if out.len() as u64 != state.room {
        return None;
    }
    if (MOST_ROWS as u64) < state.rows {
        return None;
    }
    if state.room < state.words {
        return None;
    }
    find_in(&out[..state.words as usize], state.rows as u32)
}

// What is left where state and buffer belong together: too many rows, a bad argument, a pad bit, no room, or the longer
// body.
fn append_at(
    p: Place,
    rows: u32,
    out: &mut [u32],
    more: u32,
    plain: &[u32],
) -> Result<usize, Refusal>
    requires rows_le_most_rows { rows ≤ most_rows }
    requires by_index { (q : ℕ → Bool) × PlaceOf rows q out.old p }
    ensures { (q : ℕ → Bool) → PlaceOf rows q out.old p
        → Wrote (behind rows q (batch_of more plain.now) (length out.old))
        result out.old out.new }
{
    if MOST_ROWS - rows < more {
        return Err(answer::too_many_rows());
    }
    compress::check_plain(plain, more)?;
    extend::extend(out, p, rows, plain, more)
}

// What a batch is answered, with the buffer afterwards.
pub fn answer_batch(
    state: AppendState,
    out: &mut [u32],
    more: u32,
    plain: &[u32],
) -> Result<usize, Refusal>
    ensures { Wrote (batches.append state out.old (batch_of more plain.now)) result out.old out.new }
{
    match find(state, out) {
        None => Err(mismatched()),
        Some(p) => append_at(p, state.rows as u32, out, more, plain),
    }
}
