// Plain words: their first fault, and the body written from them.
ghost use Rattle.std.specs.Prelude.{◌≡◌, ◌++◌, ◌≤◌, length, drop};
ghost use Rattle.meaning.specs.Segment.{has_row};
ghost use Rattle.meaning.specs.Format.{canonical};
ghost use Rattle.laws.specs.Demands.{PlainRows};
ghost use Rattle.meaning.specs.Answer as meaning;
ghost use Rattle.answers.specs.Told.{outcome_of, Wrote};

use answers::answer;
use answers::refusal::Refusal;
use body_write::bound;
use meaning::{Format, MOST_ROWS};
use words::rows;

// The first fault of plain words.
pub fn check_plain(plain: &[u32], rows: u32) -> Result<(), Refusal>
    ensures { outcome_of result ≡ meaning.plain_fault rows plain.now }
{
    if MOST_ROWS < rows {
        return Err(answer::too_many_rows());
    }
    let words = rows::segment_count::<32>(rows) as usize;
    if plain.len() != words {
        return Err(answer::bad_argument());
    }
    if words == 0 {
        return Ok(());
    }
    if rows::sets_pad::<32>(rows, plain[words - 1]) {
        return Err(answer::pad_bit(words as u64 - 1));
    }
    Ok(())
}

// How many words the canonical body of plain words has.
fn measure(format: Format, plain: &[u32], rows: u32) -> usize
    requires { PlainRows rows plain.now }
    ensures { result ≡ length (canonical format rows (has_row 32 plain.now)) }
{
    match format {
        Format::Ewah => ewah_write::compress::measure(plain, rows),
        Format::Wah => rewrite::compress::measure(format, plain, rows),
    }
}

// Plain words written in canonical form, into a buffer with room for it; the words behind stay.
fn compress(format: Format, plain: &[u32], rows: u32, out: &mut [u32]) -> usize
    requires plain_rows { PlainRows rows plain.now }
    requires plain_in_bounds { length (canonical format rows (has_row 32 plain.now)) ≤ length out.old }
    ensures { (result ≡ length (canonical format rows (has_row 32 plain.now)))
        × (out.new ≡ canonical format rows (has_row 32 plain.now) ++ drop result out.old) }
{
    match format {
        Format::Ewah => ewah_write::compress::write(plain, rows, out),
        Format::Wah => rewrite::compress::write(format, plain, rows, out),
    }
}

// The same, with what is told.
fn write_fitting(
    format: Format,
    plain: &[u32],
    rows: u32,
    out: &mut [u32],
) -> Result<usize, Refusal>
    requires plain_rows { PlainRows rows plain.now }
    requires plain_in_bounds { length (canonical format rows (has_row 32 plain.now)) ≤ length out.old }
    ensures { Wrote (meaning.write format rows (has_row 32 plain.now) (length out.old))
        result out.old out.new }
{
    Ok(compress(format, plain, rows, out))
}

// Plain words written in canonical form; 9 where they do not fit. They are measured first, unless the buffer surely has
// room.
pub fn write_plain(
    format: Format,
    plain: &[u32],
    rows: u32,
    out: &mut [u32],
) -> Result<usize, Refusal>
    requires { PlainRows rows plain.now }
    ensures { Wrote (meaning.write format rows (has_row 32 plain.now) (length out.old))
        result out.old out.new }
{
    if bound::most_words(format, rows) <= out.len() {
        return write_fitting(format, plain, rows, out);
    }
    let need = measure(format, plain, rows);
    if out.len() < need {
        return Err(answer::no_room(need as u64));
    }
    write_fitting(format, plain, rows, out)
}
