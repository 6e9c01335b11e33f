// A whole index written anew, with bodies of a format.
// Calls here have a `requires`; the public ones of `zvonurel` test their input first.
#![tactic(auto)]

ghost use Rattle.std.specs.Prelude.{◌≡◌, true, ◌++◌, ◌+◌, ◌≤◌, ◌<◌, length, drop};
ghost use Rattle.meaning.specs.Format.{canonical};
ghost use Rattle.meaning.specs.Index.{row_count, bitmap_count, body_place, rows_at};
ghost use Rattle.laws.specs.Laws.{IndexFacts};
ghost use Rattle.meaning.specs.NewIndex.{index_room, write_index};
ghost use Rattle.meaning.specs.Rewriting.{sets_from};
ghost use Rattle.answers.specs.Told.{Wrote};
ghost use Rattle.row_write.specs.Packing.{Rewritten};
ghost use Rattle.archive.specs.Anew.{anew, BodyAdded};

use answers::answer;
use answers::refusal::Refusal;
use body_write::sink::{Measured, Sink, Stored};
use meaning::Format;

// The body of bitmap k in canonical form of the format `to`. How many words it has.
fn put_body<S: Sink>(index: &[u32], k: u32, to: Format, out: &mut S) -> usize
    requires index_facts { IndexFacts index.now }
    requires k_bound { k < bitmap_count index.now }
    requires k_in_bounds { S.stores ≡ true
        → length (canonical to (row_count index.now) (rows_at index.now k)) ≤ length (S.words out.old) }
    ensures rewritten { Rewritten to (row_count index.now) (rows_at index.now k)
        (S.words out.old) S.stores (S.words out.new) result }
    ensures same { (S.name out.new ≡ S.name out.old) × (length (S.words out.new) ≡ length (S.words out.old)) }
{
    rewrite::body::rewrite(
        contents::format(index),
        to,
        contents::body(index, k),
        contents::rows(index),
        out,
    )
}

// The same, to the front of a buffer with room for it.
fn store_body(index: &[u32], k: u32, to: Format, out: &mut [u32]) -> usize
    requires index_facts { IndexFacts index.now }
    requires k_bound { k < bitmap_count index.now }
    requires k_in_bounds { length (canonical to (row_count index.now) (rows_at index.now k)) ≤ length out.old }
    ensures { Rewritten to (row_count index.now) (rows_at index.now k) out.old true out.new result }
{
    put_body(index, k, to, &mut Stored { out })
}

// How many words the new index has: its head, its contents, and each body.
fn measure(index: &[u32], to: Format) -> usize
    requires { IndexFacts index.now }
    ensures { result ≡ length (anew index.now to) }
{
    let n = contents::bitmaps(index);
    let mut need = contents::entry_place(index, n);
    for k in 0..n {
        need += put_body(index, k, to, &mut Measured {});
    }
    need
}

// Body k, from `at` on, where the one before it ends, and its entry; where it ends itself.
fn write_body(index: &[u32], k: u32, to: Format, out: &mut [u32], at: usize) -> usize
    requires index_facts { IndexFacts index.now }
    requires k_bound { k < bitmap_count index.now }
    requires at_value { (at ≡ body_place (anew index.now to) k)
        × (length (anew index.now to) ≤ index_room (length out.old)) }
    ensures { (result ≡ body_place (anew index.now to) (k + 1))
        × BodyAdded (anew index.now to) out.old out.new k }
{
    let words = store_body(index, k, to, &mut out[at..]);
    let entry = contents::entry_place(index, k);
    out[entry] = at as u32;
    out[entry + 1] = words as u32;
    at + words
}

// The new index, to the front of a buffer with room for it; the words behind stay.
fn write(index: &[u32], to: Format, out: &mut [u32])
    requires index_facts { IndexFacts index.now }
    requires to_len_bound { length (anew index.now to) ≤ index_room (length out.old) }
    ensures { out.new
        ≡ anew index.now to ++ drop (length (anew index.now to)) out.old }
{
    let n = contents::bitmaps(index);
    out[0] = contents::kind(to);
    out[1] = contents::rows(index);
    out[2] = n;
    let mut at = contents::entry_place(index, n);
    for k in 0..n {
        at = write_body(index, k, to, out, at);
    }
}

// All bitmaps, in their order, as a new index with bodies of the format `to`, unless it does not fit, or would be longer than an
// index may be.
pub fn rewrite(index: &[u32], to: Format, out: &mut [u32]) -> Result<usize, Refusal>
    requires { IndexFacts index.now }
    ensures { Wrote (write_index to (row_count index.now)
        (sets_from index.now 0 (bitmap_count index.now)) (length out.old))
        result out.old out.new }
{
    let need = measure(index, to);
    if contents::room(out.len()) < need {
        return Err(answer::no_room(need as u64));
    }
    write(index, to, out);
    Ok(need)
}
