// Rows that are written as a body, or only measured, one after the other: whole segments go to the writer, and a
// packer has the rows behind them.
ghost use Rattle.std.specs.Prelude.{◌≡◌, Bool, true, false, List, ℕ, ◌+◌, ◌-◌, ◌*◌, ◌%◌, ◌^◌, ◌≤◌, ◌<◌, eqb, length};
ghost use Rattle.meaning.specs.Limits.{most_rows};
ghost use Rattle.meaning.specs.Segment.{is_set};
ghost use Rattle.meaning.specs.Format.{width, canonical};
ghost use Rattle.row_write.specs.Walking.{row_in, Gives};
ghost use Rattle.row_write.specs.Packing.{Packed, Takes, PutOn, Rewritten};

use crate::emit;
use body_write::sink::Sink;
use body_write::writer;
use ewah::cursor::Piece;
use ewah_write::writer::Writer;
use meaning::Format;
use repack::packer;
use repack::packer::Packer;
use words::{bits, rows};

#[derive(Clone, Copy)]
pub struct Output {
    pub writer: Writer,
    pub packer: Packer,
}

// No rows yet.
pub fn start(format: Format) -> Output
    ensures { (result.packer.have ≡ 0) × ((R : ℕ) (q : ℕ → Bool) (old : List ℕ) (store : Bool) → R ≤ most_rows
        → (store ≡ true → length (canonical format R q) ≤ length old) → Packed format R q old store old 0 result) }
{
    Output {
        writer: writer::start(format),
        packer: Packer { word: 0, have: 0 },
    }
}

// If the packer has a whole segment, the first one goes to the writer.
fn take_whole<S: Sink>(format: Format, out: &mut S, o: Output) -> Output
    requires { Takes format S.stores (S.words out.old) o (λ j. false) 0 }
    ensures format_value { (width format ≤ o.packer.have → result.packer.have + width format ≡ o.packer.have)
        × (o.packer.have < width format → result.packer.have ≡ o.packer.have) }
    ensures put_on { PutOn format S.stores (S.words out.old) (S.words out.new) o (λ j. false) 0 result }
    ensures same { (S.name out.new ≡ S.name out.old) × (length (S.words out.new) ≡ length (S.words out.old)) }
{
    let held = o.packer;
    let w = o.writer;
    let width = rows::width(format);
    if packer::full(held, width) {
        let cut = packer::take(held, width);
        let rest = cut.rest;
        let v = out.segment(format, w, cut.segment, rows::full(format));
        return Output {
            writer: v,
            packer: rest,
        };
    }
    o
}

// k rows more, the lowest bits of x: with those before they fill two segments at most.
fn put_word<S: Sink>(format: Format, out: &mut S, o: Output, x: u32, k: u32) -> Output
    requires have_bound { (o.packer.have < width format) × (k ≤ 32) × (x < 2 ^ k) }
    requires takes { Takes format S.stores (S.words out.old) o (is_set x) k }
    ensures have_value { result.packer.have ≡ (o.packer.have + k) % width format }
    ensures put_on { PutOn format S.stores (S.words out.old) (S.words out.new) o (is_set x) k result }
    ensures same { (S.name out.new ≡ S.name out.old) × (length (S.words out.new) ≡ length (S.words out.old)) }
{
    let held = o.packer;
    let w = o.writer;
    let more = Output {
        writer: w,
        packer: packer::add(held, x, k),
    };
    let once = take_whole(format, out, more);
    take_whole(format, out, once)
}

// k rows more, all of one value; at most a word's.
fn put_part<S: Sink>(format: Format, out: &mut S, o: Output, value: u32, k: u32) -> Output
    requires have_bound { (o.packer.have < width format) × (k ≤ 32) × (value < 2) }
    requires takes { Takes format S.stores (S.words out.old) o (λ j. eqb value 1) k }
    ensures have_value { result.packer.have ≡ (o.packer.have + k) % width format }
    ensures put_on { PutOn format S.stores (S.words out.old) (S.words out.new) o (λ j. eqb value 1) k result }
    ensures same { (S.name out.new ≡ S.name out.old) × (length (S.words out.new) ≡ length (S.words out.old)) }
{
    put_word(format, out, o, value * bits::low_ones(k), k)
}

// n whole segments, all of whose rows have one value, where no segment is begun: one run.
fn put_whole<S: Sink>(format: Format, out: &mut S, o: Output, value: u32, n: u32) -> Output
    requires have_value { (o.packer.have ≡ 0) × (value < 2) }
    requires takes { Takes format S.stores (S.words out.old) o (λ j. eqb value 1) (n * width format) }
    ensures have_value_2 { result.packer.have ≡ 0 }
    ensures put_on { PutOn format S.stores (S.words out.old) (S.words out.new) o (λ j. eqb value 1) (n * width format) result }
    ensures same { (S.name out.new ≡ S.name out.old) × (length (S.words out.new) ≡ length (S.words out.old)) }
{
    if n == 0 {
        return o;
    }
    let held = o.packer;
    let w = o.writer;
    let v = emit::run(format, out, w, value, n);
    Output {
        writer: v,
        packer: held,
    }
}

// How many rows the segment begun lacks: none if none is begun.
fn lacking(have: u32, width: u32) -> u32
    requires { have < width }
    ensures { (result < width) × ((have + result) % width ≡ 0) }
{
    if have == 0 {
        return 0;
    }
    width - have
}

// n rows more, all of one value: those that fill up the segment begun, whole segments, and those of a new one.
fn put_run<S: Sink>(format: Format, out: &mut S, o: Output, value: u32, n: u32) -> Output
    requires have_bound { (o.packer.have < width format) × (value < 2) }
    requires takes { Takes format S.stores (S.words out.old) o (λ j. eqb value 1) n }
    ensures have_bound_2 { result.packer.have < width format }
    ensures put_on { PutOn format S.stores (S.words out.old) (S.words out.new) o (λ j. eqb value 1) n result }
    ensures same { (S.name out.new ≡ S.name out.old) × (length (S.words out.new) ≡ length (S.words out.old)) }
{
    let held = o.packer;
    let w = rows::width(format);
    let k = lacking(held.have, w);
    if n < k {
        return put_part(format, out, o, value, n);
    }
    let left = n - k;
    let a = put_part(format, out, o, value, k);
    let b = put_whole(format, out, a, value, left / w);
    put_part(format, out, b, value, left % w)
}

// The first k rows of a piece more; a run's all have its value.
pub fn put<S: Sink>(format: Format, out: &mut S, o: Output, piece: Piece, k: u32) -> Output
    requires have_bound { (o.packer.have < width format) × Gives piece k }
    requires takes { Takes format S.stores (S.words out.old) o (row_in piece) k }
    ensures have_bound_2 { result.packer.have < width format }
    ensures put_on { PutOn format S.stores (S.words out.old) (S.words out.new) o (row_in piece) k result }
    ensures same { (S.name out.new ≡ S.name out.old) × (length (S.words out.new) ≡ length (S.words out.old)) }
{
    match piece {
        Piece::Clean(value, _) => put_run(format, out, o, value, k),
        Piece::Dirty(x) => { put_word(format, out, o, packer::lowest(x as u64, k), k) }
    }
}

// All rows are put: the segment begun goes to the writer too, as its rows spell it. How many words the body has.
pub fn finish<S: Sink>(format: Format, out: &mut S, o: Output) -> usize
    requires have_bound { o.packer.have < width format }
    requires by_index { (R : ℕ) × (q : ℕ → Bool) × (old : List ℕ) × Packed format R q old S.stores (S.words out.old) R o }
    ensures rewritten { (R : ℕ) (q : ℕ → Bool) (old : List ℕ) → Packed format R q old S.stores (S.words out.old) R o
        → Rewritten format R q old S.stores (S.words out.new) result }
    ensures same { (S.name out.new ≡ S.name out.old) × (length (S.words out.new) ≡ length (S.words out.old)) }
{
    let held = o.packer;
    let w = o.writer;
    if held.have == 0 {
        return w.used;
    }
    let mask = bits::low_ones(held.have);
    let x = rows::spelled(packer::lowest(held.word, 32), mask, rows::full(format));
    let v = out.segment(format, w, x, mask);
    v.used
}
