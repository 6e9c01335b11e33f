// Questions on a body that has no fault: what is left to be refused, and the answer.
ghost use Rattle.std.specs.Prelude.{◌≡◌, true, ◌≤◌, length};
ghost use Rattle.meaning.specs.Limits.{most_rows};
ghost use Rattle.meaning.specs.Format.{rows_of, canonical};
ghost use Rattle.laws.specs.Laws.{SoundFacts};
ghost use Rattle.meaning.specs.Answer as meaning;
ghost use Rattle.answers.specs.Told.{outcome_of, Wrote};
ghost use Rattle.row_write.specs.Packing.{Rewritten};

use answers::answer;
use answers::refusal::Refusal;
use body_read::{nth, row};
use body_write::bound;
use body_write::sink::{Measured, Stored};
use meaning::{Format, Row};

// The answer on row r; 8 where there is none.
pub fn row(format: Format, body: &[u32], rows: u32, r: u32) -> Result<Row, Refusal>
    requires rows_le_most_rows { rows ≤ most_rows }
    requires sound_facts { SoundFacts format rows body.now }
    ensures { outcome_of result ≡ meaning.ask_row format rows body.now r }
{
    if rows <= r {
        return Err(answer::bad_argument());
    }
    Ok(row::row(format, body, rows, r))
}

// The nth set row; 8 where there are not so many.
pub fn nth(format: Format, body: &[u32], rows: u32, n: u32) -> Result<u32, Refusal>
    requires rows_le_most_rows { rows ≤ most_rows }
    requires sound_facts { SoundFacts format rows body.now }
    ensures { outcome_of result ≡ meaning.ask_nth rows (rows_of format body.now) n }
{
    nth::nth(format, body, rows, n).ok_or(answer::bad_argument())
}

// The body in canonical form of the format `to`; 9 where it does not fit.
// It is measured first, unless the buffer surely has room.
pub fn rewrite(
    from: Format,
    to: Format,
    body: &[u32],
    rows: u32,
    out: &mut [u32],
) -> Result<usize, Refusal>
    requires rows_le_most_rows { rows ≤ most_rows }
    requires sound_facts { SoundFacts from rows body.now }
    ensures { Wrote (meaning.write to rows (rows_of from body.now) (length out.old))
        result out.old out.new }
{
    if bound::most_words(to, rows) <= out.len() {
        return write_fitting(from, to, body, rows, out);
    }
    let need = rewrite::body::rewrite(from, to, body, rows, &mut Measured {});
    if out.len() < need {
        return Err(answer::no_room(need as u64));
    }
    write_fitting(from, to, body, rows, out)
}

// The same, into a buffer with room for it.
fn write_fitting(
    from: Format,
    to: Format,
    body: &[u32],
    rows: u32,
    out: &mut [u32],
) -> Result<usize, Refusal>
    requires rows_le_most_rows { rows ≤ most_rows }
    requires sound_facts { SoundFacts from rows body.now }
    requires body_in_bounds { length (canonical to rows (rows_of from body.now)) ≤ length out.old }
    ensures { Wrote (meaning.write to rows (rows_of from body.now) (length out.old))
        result out.old out.new }
{
    Ok(store(from, to, body, rows, out))
}

// Its words, to the front of a buffer with room for them.
fn store(from: Format, to: Format, body: &[u32], rows: u32, out: &mut [u32]) -> usize
    requires rows_le_most_rows { (rows ≤ most_rows) × SoundFacts from rows body.now }
    requires body_in_bounds { length (canonical to rows (rows_of from body.now)) ≤ length out.old }
    ensures { Rewritten to rows (rows_of from body.now) out.old true out.new result }
{
    rewrite::body::rewrite(from, to, body, rows, &mut Stored { out })
}
