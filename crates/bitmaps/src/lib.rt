// A bitmap of a sound index: its number, and what is asked of its body.
#![tactic(auto)]

ghost use Rattle.std.specs.Prelude.{◌≡◌, ◌≤◌, ◌<◌, length};
ghost use Rattle.meaning.specs.Limits.{head_words};
ghost use Rattle.meaning.specs.Rows.{count_below};
ghost use Rattle.meaning.specs.Refusal.{sound, refuse_if};
ghost use Rattle.meaning.specs.Index.{format_of, row_count, bitmap_count, body_at, rows_at};
ghost use Rattle.laws.specs.Laws.{IndexFacts};
ghost use Rattle.meaning.specs.Answer as meaning;
ghost use Rattle.answers.specs.Told.{outcome_of, Wrote};

use answers::answer;
use answers::refusal::Refusal;
use body_read::count;
use meaning::{Format, Row};
use single::body;

// Whether an index has a bitmap k; 8 where it has not.
pub fn check_number(index: &[u32], k: u32) -> Result<(), Refusal>
    requires { head_words ≤ length index.now }
    ensures { outcome_of result ≡ refuse_if (meaning.bad_bitmap index.now k) 8 0 0 sound }
{
    if contents::bitmaps(index) <= k {
        return Err(answer::bad_argument());
    }
    Ok(())
}

// The answer on row r of bitmap k; 8 where there is none.
pub fn row(index: &[u32], k: u32, r: u32) -> Result<Row, Refusal>
    requires index_facts { IndexFacts index.now }
    requires k_bound { k < bitmap_count index.now }
    ensures { outcome_of result ≡ meaning.ask_row (format_of index.now) (row_count index.now)
        (body_at index.now k) r }
{
    body::row(
        contents::format(index),
        contents::body(index, k),
        contents::rows(index),
        r,
    )
}

// How many rows of bitmap k are set.
pub fn count(index: &[u32], k: u32) -> u32
    requires index_facts { IndexFacts index.now }
    requires k_bound { k < bitmap_count index.now }
    ensures { result ≡ count_below (row_count index.now) (rows_at index.now k) }
{
    count::count(
        contents::format(index),
        contents::body(index, k),
        contents::rows(index),
    )
}

// The nth set row of bitmap k; 8 where there are not so many.
pub fn nth(index: &[u32], k: u32, n: u32) -> Result<u32, Refusal>
    requires index_facts { IndexFacts index.now }
    requires k_bound { k < bitmap_count index.now }
    ensures { outcome_of result ≡ meaning.ask_nth (row_count index.now) (rows_at index.now k) n }
{
    body::nth(
        contents::format(index),
        contents::body(index, k),
        contents::rows(index),
        n,
    )
}

// The plain words of bitmap k; 9 where they do not fit.
pub fn plain(index: &[u32], k: u32, out: &mut [u32]) -> Result<usize, Refusal>
    requires index_facts { IndexFacts index.now }
    requires k_bound { k < bitmap_count index.now }
    ensures { Wrote (meaning.ask_plain (row_count index.now) (rows_at index.now k)
        (length out.old)) result out.old out.new }
{
    plain::expand::plain(
        contents::format(index),
        contents::body(index, k),
        contents::rows(index),
        out,
    )
}

// Bitmap k in canonical form of the format `to`; 9 where it does not fit.
pub fn rewrite(index: &[u32], k: u32, to: Format, out: &mut [u32]) -> Result<usize, Refusal>
    requires index_facts { IndexFacts index.now }
    requires k_bound { k < bitmap_count index.now }
    ensures { Wrote (meaning.write to (row_count index.now) (rows_at index.now k)
        (length out.old)) result out.old out.new }
{
    body::rewrite(
        contents::format(index),
        to,
        contents::body(index, k),
        contents::rows(index),
        out,
    )
}
