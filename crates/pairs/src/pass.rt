// One pass over two columns, block by block or run by run: the bodies of what an operation makes of them, measured or written.
ghost use Rattle.std.specs.Prelude.{◌≡◌, true, ℕ, ◌+◌, ◌≤◌, length};
ghost use Rattle.new_index.specs.Writers.{Laid, region};
ghost use Rattle.pairs.specs.Passes.{Columns, body_of, PassedTo};

use crate::{nearest, spell};
use blocks::choose;
use ewah_write::writer::Writer;
use meaning::{BLOCK_WORDS, MOST_VALUE_COLUMN, Pairing, SHORT_NAMED};
use new_index::writers;
use walk::query::ENDED;
use walk::survey;
use words::frame::Frame;

// The rows that exist and the answer's n slices, each to its own part of `out` where `store` says so, and else only measured.
pub fn pass(
    op: Pairing,
    index: &[u32],
    first: &[u32],
    second: &[u32],
    n: usize,
    out: &mut [u32],
    starts: &[usize],
    store: bool,
) -> [Writer; MOST_VALUE_COLUMN]
    requires columns { Columns index.now first.now second.now n }
    requires laid { Laid starts.now (n + 1) (length out.old) }
    requires i_in_bounds { store ≡ true → (i : ℕ) → i ≤ n
        → length (body_of op index.now first.now second.now n i) ≤ length (region starts.now out.old i) }
    ensures { PassedTo op index.now first.now second.now n
        starts.now out.old out.new result store }
{
    let f = Frame::of(contents::format(index), contents::rows(index));
    let format = f.format;
    let mut firsts = [ENDED; SHORT_NAMED];
    let mut seconds = [ENDED; SHORT_NAMED];
    let p = &mut firsts[..first.len()];
    let q = &mut seconds[..second.len()];
    survey::open(format, index, first, p);
    survey::open(format, index, second, q);
    let mut ws = writers::start(format);
    let mut x: [u32; BLOCK_WORDS] = [0; BLOCK_WORDS];
    let mut y: [u32; BLOCK_WORDS] = [0; BLOCK_WORDS];
    let mut z: [u32; BLOCK_WORDS] = [0; BLOCK_WORDS];
    let mut run = false;
    let mut o: u32 = 0;
    // Kept: a turn goes on by a block or a run, however long that is; a `for` has no such step.
    while o < f.segments {
        let near = nearest::nearest(p, q);
        let s = choose::choose(near, o, f.segments, run);
        let mask = f.mask(o + s.n);
        gather::gather(format, index, first, p, s.n, s.even, &mut x);
        gather::gather(format, index, second, q, s.n, s.even, &mut y);
        adder::pair(op, &x, &y, &mut z, n);
        spell::spell(&mut z, n + 1, s, mask, f.full);
        let own = &mut ws[..n + 1];
        writers::emit_all(format, out, starts, own, &z, s.n, s.even, mask, store);
        run = s.even;
        o += s.n;
    }
    ws
}
