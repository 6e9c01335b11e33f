// The public calls on one body alone, of a format: bitmap 0, with places counted in the body; too many rows are refused
// first. `zvonurel` passes them on, and says what every `ensures` settles.
#![tactic(auto)]

ghost use Rattle.std.specs.Prelude.{◌≡◌, length};
ghost use Rattle.meaning.specs.Answer as meaning;
ghost use Rattle.meaning.specs.Rewriting as rewriting;
ghost use Rattle.answers.specs.Told.{outcome_of, Wrote};

use answers::answer;
use answers::refusal::Refusal;
use meaning::{Format, MOST_ROWS, Row};

// The first fault of a body of that many rows.
pub fn check_body(format: Format, body: &[u32], rows: u32) -> Result<(), Refusal>
    ensures { outcome_of result ≡ meaning.check_body format rows body.now }
{
    if MOST_ROWS < rows {
        return Err(answer::too_many_rows());
    }
    bodies::check::check(format, body, rows, 0, 0)
}

// Whether a row is set, and which rows its piece has in that body: the first of them and the last.
pub fn body_row(format: Format, body: &[u32], rows: u32, row: u32) -> Result<Row, Refusal>
    ensures { outcome_of result ≡ meaning.body_row format rows body.now row }
{
    check_body(format, body, rows)?;
    single::body::row(format, body, rows, row)
}

// How many rows are set.
pub fn body_count(format: Format, body: &[u32], rows: u32) -> Result<u32, Refusal>
    ensures { outcome_of result ≡ meaning.body_count format rows body.now }
{
    check_body(format, body, rows)?;
    Ok(body_read::count::count(format, body, rows))
}

// The nth set row, counted from 0.
pub fn body_nth(format: Format, body: &[u32], rows: u32, n: u32) -> Result<u32, Refusal>
    ensures { outcome_of result ≡ meaning.body_nth format rows body.now n }
{
    check_body(format, body, rows)?;
    single::body::nth(format, body, rows, n)
}

// The body's rows as plain words, 32 rows to a word, the lowest bit first.
pub fn expand(format: Format, body: &[u32], rows: u32, out: &mut [u32]) -> Result<usize, Refusal>
    ensures { Wrote (meaning.expand format rows body.now (length out.old))
        result out.old out.new }
{
    check_body(format, body, rows)?;
    plain::expand::plain(format, body, rows, out)
}

// Plain words as a body in canonical form.
pub fn compress(format: Format, rows: u32, plain: &[u32], out: &mut [u32]) -> Result<usize, Refusal>
    ensures { Wrote (meaning.compress format rows plain.now (length out.old))
        result out.old out.new }
{
    plain::compress::check_plain(plain, rows)?;
    plain::compress::write_plain(format, plain, rows, out)
}

// A body written anew, in canonical form, in the format `to`.
pub fn rewrite(
    from: Format,
    to: Format,
    body: &[u32],
    rows: u32,
    out: &mut [u32],
) -> Result<usize, Refusal>
    ensures { Wrote (rewriting.rewrite from to rows body.now (length out.old))
        result out.old out.new }
{
    check_body(from, body, rows)?;
    single::body::rewrite(from, to, body, rows, out)
}
