// A body made longer by a batch of plain words: the rows of the segment that was not whole, and then the batch's, go
// through a packer to the body's own writer. It is measured first, unless the buffer surely has room: nothing is stored
// before it is known to fit.
// Calls here have a `requires`; the public ones of `zvonurel` test their input first.
#![tactic(auto)]

ghost use Rattle.std.specs.Prelude.{◌≡◌, Bool, true, List, ℕ, ◌+◌, ◌≤◌, ◌<◌, length};
ghost use Rattle.meaning.specs.Limits.{most_rows};
ghost use Rattle.meaning.specs.declared.Format.TheVariants.{Ewah};
ghost use Rattle.laws.specs.Demands.{PlainRows};
ghost use Rattle.ewah_write.specs.Drafts.{Writing};
ghost use Rattle.row_write.specs.Packing.{Rewritten};
ghost use Rattle.resume.specs.Resume.{PlaceOf};
ghost use Rattle.extend.specs.Longer.{Fits, WroteLonger, Reopened, BatchNext, MarkerStored};

use answers::answer;
use answers::refusal::Refusal;
use body_write::bound;
use body_write::sink::{Measured, Sink, Stored};
use ewah::cursor::Piece;
use ewah::marker;
use ewah_write::writer::Writer;
use meaning::Format;
use repack::packer::Packer;
use resume::Place;
use row_write::output;
use row_write::output::Output;

// The rows of a batch, behind those that the output has, and then the last segment. How many words the body has.
fn feed<S: Sink>(out: &mut S, o: Output, plain: &[u32], rows: u32) -> usize
    requires have_bound { (o.packer.have < 32) × PlainRows rows plain.now }
    requires by_index { (R : ℕ) × (q : ℕ → Bool) × (old : List ℕ)
        × BatchNext R q old S.stores (S.words out.old) o plain.now rows }
    ensures rewritten { (R : ℕ) (q : ℕ → Bool) (old : List ℕ)
        → BatchNext R q old S.stores (S.words out.old) o plain.now rows
        → Rewritten Ewah (R + rows) q old S.stores (S.words out.new) result }
    ensures same { (S.name out.new ≡ S.name out.old) × (length (S.words out.new) ≡ length (S.words out.old)) }
{
    let mut v = o;
    let mut left = rows;
    for x in plain {
        let k = left.min(32);
        v = output::put(Format::Ewah, out, v, Piece::Dirty(*x), k);
        left -= k;
    }
    output::finish(Format::Ewah, out, v)
}

// The same, to the front of a buffer with room for it.
fn store(out: &mut [u32], o: Output, plain: &[u32], rows: u32) -> usize
    requires have_bound { (o.packer.have < 32) × PlainRows rows plain.now }
    requires by_index { (R : ℕ) × (q : ℕ → Bool) × (old : List ℕ) × BatchNext R q old true out.old o plain.now rows }
    ensures { (R : ℕ) (q : ℕ → Bool) (old : List ℕ)
        → BatchNext R q old true out.old o plain.now rows
        → Rewritten Ewah (R + rows) q old true out.new result }
{
    feed(&mut Stored { out }, o, plain, rows)
}

// The place as an output: the rows behind the whole segments are in the packer.
fn reopen(p: Place, before: u32) -> Output
    ensures { Reopened before p result }
{
    let w = p.writer;
    let part = p.part as u64;
    Output {
        writer: w,
        packer: Packer {
            word: part,
            have: before & 31,
        },
    }
}

// The last marker is stored as the writer has it: it may count one segment fewer than it did.
fn restore(out: &mut [u32], w: Writer)
    requires { Writing w × (w.used ≤ length out.old) }
    ensures { MarkerStored out.old out.new w }
{
    if w.used == 0 {
        return;
    }
    let at = w.at;
    out[at] = marker::word(w.last);
}

// The longer body's words, into a buffer with room for them; the words behind stay.
fn write(out: &mut [u32], p: Place, before: u32, plain: &[u32], rows: u32) -> usize
    requires plain_rows { PlainRows rows plain.now × (before + rows ≤ most_rows) }
    requires by_index { (q : ℕ → Bool) × PlaceOf before q out.old p × Fits before q rows plain.now out.old }
    ensures { (q : ℕ → Bool) → PlaceOf before q out.old p
        → Fits before q rows plain.now out.old
        → WroteLonger before q rows plain.now (Ok result) out.old out.new }
{
    restore(out, p.writer);
    store(out, reopen(p, before), plain, rows)
}

// The body of the rows so far and the batch's, unless it does not fit.
pub fn extend(
    out: &mut [u32],
    p: Place,
    before: u32,
    plain: &[u32],
    rows: u32,
) -> Result<usize, Refusal>
    requires plain_rows { PlainRows rows plain.now × (before + rows ≤ most_rows) }
    requires by_index { (q : ℕ → Bool) × PlaceOf before q out.old p }
    ensures { (q : ℕ → Bool) → PlaceOf before q out.old p
        → WroteLonger before q rows plain.now result out.old out.new }
{
    if bound::most_words(Format::Ewah, before + rows) <= out.len() {
        return Ok(write(out, p, before, plain, rows));
    }
    let need = feed(&mut Measured {}, reopen(p, before), plain, rows);
    if out.len() < need {
        return Err(answer::no_room(need as u64));
    }
    Ok(write(out, p, before, plain, rows))
}
