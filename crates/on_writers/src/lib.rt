// The public calls of a writer that takes rows in batches, whose state and buffer the caller keeps. `zvonurel` passes
// them on, and says what every `ensures` settles.
#![tactic(auto)]

ghost use Rattle.std.specs.Prelude.{◌≡◌};
ghost use Rattle.answers.specs.Told.{Wrote};
ghost use Rattle.batches.specs.Append as batches;
ghost use Rattle.appending.specs.Batched.{batch_of};

use answers::refusal::Refusal;
use batches::AppendState;

// The state of a writer that begins on a buffer: of its words only the number is asked, and none changes.
pub fn begin(buffer: &[u32]) -> AppendState
    ensures { result ≡ batches.begun buffer.now }
{
    AppendState {
        room: buffer.len() as u64,
        rows: 0,
        words: 0,
    }
}

// A batch of rows, as plain words, behind those that the writer has: the buffer then begins with all of them as an EWAH
// body in canonical form, and the state says how many rows and words there are. A refusal changes neither.
pub fn append(
    state: &mut AppendState,
    out: &mut [u32],
    rows: u32,
    plain: &[u32],
) -> Result<usize, Refusal>
    ensures wrote { Wrote (batches.append state.old out.old (batch_of rows plain.now))
        result out.old out.new }
    ensures state_after { state.new
        ≡ batches.state_after (batches.append state.old out.old (batch_of rows plain.now))
        state.old rows }
{
    let words = appending::answer_batch(*state, out, rows, plain)?;
    state.rows += rows as u64;
    state.words = words as u64;
    Ok(words)
}
