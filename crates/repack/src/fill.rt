// Plain words written row after row: those that are whole stand in the buffer, and a packer has the rows behind them.
ghost use Rattle.std.specs.Prelude.{◌≡◌, Bool, List, ◌++◌, ℕ, ◌+◌, ◌*◌, ◌≤◌, ◌<◌, ◌^◌, eqb, length, drop};
ghost use Rattle.meaning.specs.Segment.{is_set, segment_count, from_rows};
ghost use Rattle.repack.specs.Filling.{rows_done, Ready, Laid, Put, Stored};

use crate::packer;
use words::bits;

// How many words are whole, and the rows behind them.
#[derive(Clone, Copy)]
pub struct Filler {
    pub done: usize,
    pub packer: packer::Packer,
}

// No rows yet.
pub fn start() -> Filler
    ensures result_value { (rows_done result ≡ 0) × Ready result }
    ensures by_index { (q : ℕ → Bool) (was : List ℕ) → Laid q was was result }
{
    Filler {
        done: 0,
        packer: packer::Packer { word: 0, have: 0 },
    }
}

// k rows more, the lowest bits of x.
pub fn put_word(out: &mut [u32], s: Filler, x: u32, k: u32) -> Filler
    requires { Ready s × (k ≤ 32) × (x < 2 ^ k) × (rows_done s + k ≤ 32 * length out.old) }
    ensures { Put (is_set x) k s out.old out.new result }
{
    let held = s.packer;
    let done = s.done;
    let more = packer::add(held, x, k);
    if packer::full(more, 32) {
        let cut = packer::take(more, 32);
        let rest = cut.rest;
        out[done] = cut.segment;
        return Filler {
            done: done + 1,
            packer: rest,
        };
    }
    Filler {
        done: done,
        packer: more,
    }
}

// k rows more, all of one value; at most a word's.
fn put_part(out: &mut [u32], s: Filler, value: u32, k: u32) -> Filler
    requires { Ready s × (value < 2) × (k ≤ 32) × (rows_done s + k ≤ 32 * length out.old) }
    ensures { Put (λ j. eqb value 1) k s out.old out.new result }
{
    put_word(out, s, value * bits::low_ones(k), k)
}

// The words from `from` to `to` are x.
fn store(out: &mut [u32], from: usize, to: usize, x: u32)
    requires { (from ≤ to) × (to ≤ length out.old) }
    ensures { Stored x from out.old out.new to }
{
    for i in from..to {
        out[i] = x;
    }
}

// So many whole words, all of whose rows have one value, where no word is begun.
fn put_whole(out: &mut [u32], s: Filler, value: u32, words: u32) -> Filler
    requires { Ready s × (s.packer.have ≡ 0) × (value < 2) × (s.done + words ≤ length out.old) }
    ensures { Put (λ j. eqb value 1) (words * 32) s out.old out.new result }
{
    let held = s.packer;
    let done = s.done;
    let end = done + words as usize;
    store(out, done, end, value * 0xFFFF_FFFF);
    Filler {
        done: end,
        packer: held,
    }
}

// n rows more, all of one value: those that fill up the word begun, whole words, and those of a new one.
pub fn put_run(out: &mut [u32], s: Filler, value: u32, n: u32) -> Filler
    requires { Ready s × (value < 2) × (rows_done s + n ≤ 32 * length out.old) }
    ensures { Put (λ j. eqb value 1) n s out.old out.new result }
{
    let held = s.packer;
    let k = 32 - held.have;
    if n < k {
        return put_part(out, s, value, n);
    }
    let a = put_part(out, s, value, k);
    let left = n - k;
    let b = put_whole(out, a, value, left >> 5);
    put_part(out, b, value, left & 31)
}

// All rows are put: the word begun is stored too, and the words behind stay.
pub fn finish(out: &mut [u32], s: Filler)
    requires { Ready s × (rows_done s ≤ 32 * length out.old) }
    ensures { (q : ℕ → Bool) (was : List ℕ) → Laid q was out.old s
        → out.new ≡ from_rows 32 (rows_done s) q ++ drop (segment_count 32 (rows_done s)) was }
{
    let held = s.packer;
    if held.have == 0 {
        return;
    }
    let done = s.done;
    out[done] = packer::lowest(held.word, 32);
}
