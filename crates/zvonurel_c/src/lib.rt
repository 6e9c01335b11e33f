// The public calls of `zvonurel` for C, under their names with `zv_` before them. A call that takes a format is one
// call for each: those on a body alone are here for EWAH and in `alone` for WAH, those that rewrite are in
// `rewriting`. The writer that takes rows in batches is in `writing`. `include/zvonurel.h` declares them all.
//
// A slice is a pointer and a number of words. Each `ensures` cites the same outcome as the public call's, and settles
// every field of what is returned and every word of a lent buffer; `specs/Exported.antt` of the crate `replies` says
// how an outcome is told in numbers.
#![tactic(auto)]

ghost use Rattle.std.specs.Prelude.{◌≡◌, length};
ghost use Rattle.meaning.specs.declared.Format.TheVariants.{Ewah};
ghost use Rattle.meaning.specs.Answer as meaning;
ghost use Rattle.column_meaning.specs.Columns as columns;
ghost use Rattle.meaning.specs.declared.Ranking.TheVariants.{Largest, Smallest};
ghost use Rattle.laws.specs.Demands.{Asked, ThresholdDemand};
ghost use Rattle.laws.specs.RankLaws.{RankAsked, RankDemand};
ghost use Rattle.replies.specs.Exported.{Checks, Flags, Numbers, Values, SignedValues, Writes, Reports, Lends, Counts, written_told, answered_told, part_code, part_reply};

use replies::reply::Place;
pub use replies::reply::{
    ZvAnswered, ZvChecked, ZvFlag, ZvHistogram, ZvNumber, ZvPart, ZvSignedValue, ZvValue, ZvWritten,
};
pub use zvonurel::AppendState;
use zvonurel::{Format, Refusal};

mod alone;
mod rewriting;
mod writing;

// ---- one EWAH body alone: bitmap 0, with places counted in the body

#[unsafe(no_mangle)]
pub extern "C" fn zv_check_body(body: &[u32], rows: u32) -> ZvChecked
    ensures { Checks (meaning.check_body Ewah rows body.now) result }
{
    ZvChecked::from(zvonurel::check_body(Format::Ewah, body, rows))
}

#[unsafe(no_mangle)]
pub extern "C" fn zv_body_row(body: &[u32], rows: u32, row: u32) -> ZvFlag
    ensures { Flags (meaning.body_row Ewah rows body.now row) result }
{
    ZvFlag::from(zvonurel::body_row(Format::Ewah, body, rows, row))
}

#[unsafe(no_mangle)]
pub extern "C" fn zv_body_count(body: &[u32], rows: u32) -> ZvNumber
    ensures { Numbers (meaning.body_count Ewah rows body.now) result }
{
    ZvNumber::from(zvonurel::body_count(Format::Ewah, body, rows))
}

#[unsafe(no_mangle)]
pub extern "C" fn zv_body_nth(body: &[u32], rows: u32, n: u32) -> ZvNumber
    ensures { Numbers (meaning.body_nth Ewah rows body.now n) result }
{
    ZvNumber::from(zvonurel::body_nth(Format::Ewah, body, rows, n))
}

#[unsafe(no_mangle)]
pub extern "C" fn zv_expand(body: &[u32], rows: u32, out: &mut [u32]) -> ZvWritten
    ensures { Writes (meaning.expand Ewah rows body.now (length out.old))
        result out.old out.new }
{
    ZvWritten::from(zvonurel::expand(Format::Ewah, body, rows, out))
}

#[unsafe(no_mangle)]
pub extern "C" fn zv_compress(rows: u32, plain: &[u32], out: &mut [u32]) -> ZvWritten
    ensures { Writes (meaning.compress Ewah rows plain.now (length out.old))
        result out.old out.new }
{
    ZvWritten::from(zvonurel::compress(Format::Ewah, rows, plain, out))
}

// ---- an index

#[unsafe(no_mangle)]
pub extern "C" fn zv_check(index: &[u32]) -> ZvChecked
    ensures { Checks (meaning.check index.now) result }
{
    ZvChecked::from(zvonurel::check(index))
}

#[unsafe(no_mangle)]
pub extern "C" fn zv_bitmap_refusal(index: &[u32], k: u32) -> ZvChecked
    ensures { Checks (meaning.bitmap_refusal index.now k) result }
{
    ZvChecked::from(zvonurel::bitmap_refusal(index, k))
}

// Where in the index bitmap k's body lies, by the index's own contents: C has no slice to return.
#[unsafe(no_mangle)]
pub extern "C" fn zv_bitmap(index: &[u32], k: u32) -> ZvPart
    ensures { Lends index.now k result }
{
    ZvPart::from(place(index, k))
}

// The same, before it is told in numbers.
fn place(index: &[u32], k: u32) -> Result<Place, Refusal>
    ensures { part_reply result ≡ part_code index.now k }
{
    zvonurel::bitmap_refusal(index, k)?;
    Ok(Place {
        start: contents::start(index, k),
        length: contents::words(index, k),
    })
}

#[unsafe(no_mangle)]
pub extern "C" fn zv_row(index: &[u32], k: u32, row: u32) -> ZvFlag
    ensures { Flags (meaning.row index.now k row) result }
{
    ZvFlag::from(zvonurel::row(index, k, row))
}

#[unsafe(no_mangle)]
pub extern "C" fn zv_count(index: &[u32], k: u32) -> ZvNumber
    ensures { Numbers (meaning.count index.now k) result }
{
    ZvNumber::from(zvonurel::count(index, k))
}

#[unsafe(no_mangle)]
pub extern "C" fn zv_nth(index: &[u32], k: u32, n: u32) -> ZvNumber
    ensures { Numbers (meaning.nth index.now k n) result }
{
    ZvNumber::from(zvonurel::nth(index, k, n))
}

#[unsafe(no_mangle)]
pub extern "C" fn zv_expand_bitmap(index: &[u32], k: u32, out: &mut [u32]) -> ZvWritten
    ensures { Writes (meaning.expand_bitmap index.now k (length out.old))
        result out.old out.new }
{
    ZvWritten::from(zvonurel::expand_bitmap(index, k, out))
}

// ---- two bitmaps of an index, or one

#[unsafe(no_mangle)]
pub extern "C" fn zv_and(index: &[u32], j: u32, k: u32, out: &mut [u32]) -> ZvWritten
    ensures { Writes (meaning.and index.now j k (length out.old))
        result out.old out.new }
{
    ZvWritten::from(zvonurel::and(index, j, k, out))
}

#[unsafe(no_mangle)]
pub extern "C" fn zv_or(index: &[u32], j: u32, k: u32, out: &mut [u32]) -> ZvWritten
    ensures { Writes (meaning.or index.now j k (length out.old))
        result out.old out.new }
{
    ZvWritten::from(zvonurel::or(index, j, k, out))
}

#[unsafe(no_mangle)]
pub extern "C" fn zv_xor(index: &[u32], j: u32, k: u32, out: &mut [u32]) -> ZvWritten
    ensures { Writes (meaning.xor index.now j k (length out.old))
        result out.old out.new }
{
    ZvWritten::from(zvonurel::xor(index, j, k, out))
}

#[unsafe(no_mangle)]
pub extern "C" fn zv_and_not(index: &[u32], j: u32, k: u32, out: &mut [u32]) -> ZvWritten
    ensures { Writes (meaning.and_not index.now j k (length out.old))
        result out.old out.new }
{
    ZvWritten::from(zvonurel::and_not(index, j, k, out))
}

#[unsafe(no_mangle)]
pub extern "C" fn zv_not(index: &[u32], k: u32, out: &mut [u32]) -> ZvWritten
    ensures { Writes (meaning.not_of index.now k (length out.old))
        result out.old out.new }
{
    ZvWritten::from(zvonurel::not(index, k, out))
}

// ---- a list of bitmap numbers

#[unsafe(no_mangle)]
pub extern "C" fn zv_threshold(index: &[u32], list: &[u32], t: u32, out: &mut [u32]) -> ZvAnswered
    ensures reports { Reports index.now list.now
        (meaning.threshold index.now list.now t (length out.old))
        result out.old out.new }
    ensures threshold_demand { Asked index.now list.now t
        → ThresholdDemand index.now list.now t out.old
        (answered_told result out.new) out.new }
{
    ZvAnswered::from(zvonurel::threshold(index, list, t, out))
}

#[unsafe(no_mangle)]
pub extern "C" fn zv_symmetric(
    index: &[u32],
    list: &[u32],
    table: &[u32],
    out: &mut [u32],
) -> ZvAnswered
    ensures { Reports index.now list.now
        (meaning.symmetric index.now list.now table.now (length out.old))
        result out.old out.new }
{
    ZvAnswered::from(zvonurel::symmetric(index, list, table, out))
}

#[unsafe(no_mangle)]
pub extern "C" fn zv_histogram(index: &[u32], list: &[u32]) -> ZvHistogram
    ensures { Counts (meaning.histogram index.now list.now) result }
{
    ZvHistogram::from(zvonurel::histogram(index, list))
}

// ---- columns of an index, each named by a list: existence, then the slices, the lowest first

#[unsafe(no_mangle)]
pub extern "C" fn zv_value(index: &[u32], column: &[u32], row: u32) -> ZvValue
    ensures { Values (columns.value index.now column.now row) result }
{
    ZvValue::from(zvonurel::value(index, column, row))
}

#[unsafe(no_mangle)]
pub extern "C" fn zv_signed_value(index: &[u32], column: &[u32], row: u32) -> ZvSignedValue
    ensures { SignedValues (columns.signed_value index.now column.now row) result }
{
    ZvSignedValue::from(zvonurel::signed_value(index, column, row))
}

#[unsafe(no_mangle)]
pub extern "C" fn zv_sum(index: &[u32], first: &[u32], second: &[u32], out: &mut [u32]) -> ZvWritten
    ensures { Writes (columns.sum index.now first.now second.now
        (length out.old)) result out.old out.new }
{
    ZvWritten::from(zvonurel::sum(index, first, second, out))
}

#[unsafe(no_mangle)]
pub extern "C" fn zv_signed_difference(
    index: &[u32],
    first: &[u32],
    second: &[u32],
    out: &mut [u32],
) -> ZvWritten
    ensures { Writes (columns.signed_difference index.now first.now second.now
        (length out.old)) result out.old out.new }
{
    ZvWritten::from(zvonurel::signed_difference(index, first, second, out))
}

#[unsafe(no_mangle)]
pub extern "C" fn zv_smaller(
    index: &[u32],
    first: &[u32],
    second: &[u32],
    out: &mut [u32],
) -> ZvWritten
    ensures { Writes (columns.smaller index.now first.now second.now
        (length out.old)) result out.old out.new }
{
    ZvWritten::from(zvonurel::smaller(index, first, second, out))
}

#[unsafe(no_mangle)]
pub extern "C" fn zv_difference_or_zero(
    index: &[u32],
    first: &[u32],
    second: &[u32],
    out: &mut [u32],
) -> ZvWritten
    ensures { Writes (columns.difference_or_zero index.now first.now second.now
        (length out.old)) result out.old out.new }
{
    ZvWritten::from(zvonurel::difference_or_zero(index, first, second, out))
}

#[unsafe(no_mangle)]
pub extern "C" fn zv_largest(index: &[u32], column: &[u32], k: u32, out: &mut [u32]) -> ZvWritten
    ensures writes { Writes (columns.largest index.now column.now k (length out.old))
        result out.old out.new }
    ensures rank_demand { RankAsked index.now column.now k
        → RankDemand Largest index.now column.now k out.old
        (written_told result out.new) out.new }
{
    ZvWritten::from(zvonurel::largest(index, column, k, out))
}

#[unsafe(no_mangle)]
pub extern "C" fn zv_smallest(index: &[u32], column: &[u32], k: u32, out: &mut [u32]) -> ZvWritten
    ensures writes { Writes (columns.smallest index.now column.now k (length out.old))
        result out.old out.new }
    ensures rank_demand { RankAsked index.now column.now k
        → RankDemand Smallest index.now column.now k out.old
        (written_told result out.new) out.new }
{
    ZvWritten::from(zvonurel::smallest(index, column, k, out))
}
