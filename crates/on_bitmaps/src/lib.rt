// The public calls on an index and on one bitmap of it, of bodies of the format that word 0 states: the whole index is
// checked, whatever is asked. `zvonurel` passes them on, and says what every `ensures` settles.
#![tactic(auto)]

ghost use Rattle.std.specs.Prelude.{◌≡◌, ◌+◌, ◌*◌, length};
ghost use Rattle.meaning.specs.Limits.{word_bytes};
ghost use Rattle.meaning.specs.Refusal.{sound};
ghost use Rattle.meaning.specs.Index.{start_of};
ghost use Rattle.meaning.specs.Answer as meaning;
ghost use Rattle.meaning.specs.Rewriting as rewriting;
ghost use Rattle.answers.specs.Told.{outcome_of, Wrote};

use answers::refusal::Refusal;
use meaning::{Format, Row};

// The first fault of an index.
pub fn check(index: &[u32]) -> Result<(), Refusal>
    ensures { outcome_of result ≡ meaning.check index.now }
{
    index::check::check(index)
}

// Why `bitmap` returns an empty part; nothing where it was not refused.
pub fn bitmap_refusal(index: &[u32], k: u32) -> Result<(), Refusal>
    ensures { outcome_of result ≡ meaning.bitmap_refusal index.now k }
{
    check(index)?;
    bitmaps::check_number(index, k)
}

// The part of the index that is bitmap k's body: empty where the index or the number is refused. It lies in the lent
// index itself, behind its first byte by as many words as the contents say; of an empty part on a refusal only the
// block is settled.
pub fn bitmap(index: &[u32], k: u32) -> &[u32]
    ensures result_value { result.now ≡ meaning.part_of (meaning.bitmap index.now k) }
    ensures ref_ptr_value { result.ref_ptr.0 ≡ index.entry.ref_ptr.0 }
    ensures ref_ptr_value_2 { meaning.bitmap_refusal index.now k ≡ sound
        → result.ref_ptr.1 ≡ index.entry.ref_ptr.1 + word_bytes * start_of index.now k }
{
    match bitmap_refusal(index, k) {
        Err(_) => &index[0..0],
        Ok(()) => contents::body(index, k),
    }
}

// Whether a row of bitmap k is set, and the first and last row of its piece in the bitmap's body.
pub fn row(index: &[u32], k: u32, row: u32) -> Result<Row, Refusal>
    ensures { outcome_of result ≡ meaning.row index.now k row }
{
    bitmap_refusal(index, k)?;
    bitmaps::row(index, k, row)
}

// How many rows of bitmap k are set.
pub fn count(index: &[u32], k: u32) -> Result<u32, Refusal>
    ensures { outcome_of result ≡ meaning.count index.now k }
{
    bitmap_refusal(index, k)?;
    Ok(bitmaps::count(index, k))
}

// The nth set row of bitmap k, counted from 0.
pub fn nth(index: &[u32], k: u32, n: u32) -> Result<u32, Refusal>
    ensures { outcome_of result ≡ meaning.nth index.now k n }
{
    bitmap_refusal(index, k)?;
    bitmaps::nth(index, k, n)
}

// The rows of bitmap k as plain words.
pub fn expand_bitmap(index: &[u32], k: u32, out: &mut [u32]) -> Result<usize, Refusal>
    ensures { Wrote (meaning.expand_bitmap index.now k (length out.old))
        result out.old out.new }
{
    bitmap_refusal(index, k)?;
    bitmaps::plain(index, k, out)
}

// The rows of bitmap k as a body in canonical form of the format `to`.
pub fn rewrite_bitmap(index: &[u32], k: u32, to: Format, out: &mut [u32]) -> Result<usize, Refusal>
    ensures { Wrote (rewriting.rewrite_bitmap index.now k to (length out.old))
        result out.old out.new }
{
    bitmap_refusal(index, k)?;
    bitmaps::rewrite(index, k, to, out)
}

// All bitmaps, in their order, as a new index with bodies of the format `to`.
pub fn rewrite_index(index: &[u32], to: Format, out: &mut [u32]) -> Result<usize, Refusal>
    ensures { Wrote (rewriting.rewrite_index index.now to (length out.old))
        result out.old out.new }
{
    check(index)?;
    archive::rewrite(index, to, out)
}
