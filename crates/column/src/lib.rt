// One column of a sound index: rows that a slice has and that do not exist, and the value at a row, plain or signed.
// Calls here have a `requires`; the public ones of `zvonurel` test their input first.
#![tactic(auto)]

ghost use Rattle.std.specs.Prelude.{◌≡◌, ◌<◌};
ghost use Rattle.meaning.specs.Rows.{bit};
ghost use Rattle.meaning.specs.Index.{format_of, row_count, bitmap_count, rows_at};
ghost use Rattle.laws.specs.Laws.{IndexFacts};
ghost use Rattle.column_meaning.specs.Columns as meaning;
ghost use Rattle.column.specs.Lists.{NamesColumn, NamesColumnAt};
ghost use Rattle.answers.specs.Told.{outcome_of};

use answers::answer;
use answers::refusal::Refusal;
use body_read::row;
use meaning::Format;

mod outside;

// The first slice with a row that does not exist, and the lowest such row of it: 11.
pub fn strays(index: &[u32], list: &[u32]) -> Result<(), Refusal>
    requires index_facts { IndexFacts index.now }
    requires least_column_in_bounds { NamesColumn index.now list.now }
    ensures { outcome_of result ≡ meaning.strays index.now list.now }
{
    let format = contents::format(index);
    let rows = contents::rows(index);
    let exists = contents::body(index, list[0]);
    let slices = &list[1..];
    for &k in slices {
        if let Some(row) = outside::first(format, contents::body(index, k), exists, rows) {
            return Err(answer::stray(k, u64::from(row)));
        }
    }
    Ok(())
}

// Whether bitmap k has a row, where its bodies have that format.
fn has(format: Format, index: &[u32], k: u32, row: u32) -> bool
    requires index_facts { IndexFacts index.now }
    requires format_value { (format ≡ format_of index.now) × (k < bitmap_count index.now) × (row < row_count index.now) }
    ensures { result ≡ rows_at index.now k row }
{
    row::is_set(format, contents::body(index, k), row)
}

// The same as a binary digit.
fn digit(format: Format, index: &[u32], k: u32, row: u32) -> u64
    requires index_facts { IndexFacts index.now }
    requires format_value { (format ≡ format_of index.now) × (k < bitmap_count index.now) × (row < row_count index.now) }
    ensures { result ≡ bit (rows_at index.now k row) }
{
    u64::from(has(format, index, k, row))
}

// The value at a row, its highest digit first.
pub fn value(index: &[u32], list: &[u32], row: u32) -> u64
    requires index_facts { IndexFacts index.now }
    requires least_column_in_bounds { NamesColumnAt index.now list.now row }
    ensures { result ≡ meaning.value_at index.now list.now row }
{
    let format = contents::format(index);
    let mut v: u64 = 0;
    for i in (1..list.len()).rev() {
        v = 2 * v + digit(format, index, list[i], row);
    }
    v
}

// The value at a row of a signed column, which is two's complement: the top slice, its sign, is negated, and then come the others,
// the highest first.
pub fn signed_value(index: &[u32], list: &[u32], row: u32) -> i64
    requires index_facts { IndexFacts index.now }
    requires least_column_in_bounds { NamesColumnAt index.now list.now row }
    ensures { result ≡ meaning.signed_at index.now list.now row }
{
    let format = contents::format(index);
    let top = list.len() - 1;
    let sign = digit(format, index, list[top], row) as i64;
    let mut v: i64 = -sign;
    for i in (1..top).rev() {
        v = digit(format, index, list[i], row) as i64 + 2 * v;
    }
    v
}

// Whether a row exists.
pub fn exists(index: &[u32], list: &[u32], row: u32) -> bool
    requires index_facts { IndexFacts index.now }
    requires least_column_in_bounds { NamesColumnAt index.now list.now row }
    ensures { result ≡ meaning.existing index.now list.now row }
{
    has(contents::format(index), index, list[0], row)
}
