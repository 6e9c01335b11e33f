// The rows of blocks: flipped, put in, and the row of what exists in both of two blocks.
ghost use Rattle.std.specs.Prelude.{◌≡◌, ◌+◌, ◌≤◌, length};
ghost use Rattle.meaning.specs.Limits.{block_segments, block_words};
ghost use Rattle.adder.specs.Blocks.{Flipped, PutBoth, Existing};

use meaning::{BLOCK_SEGMENTS, BLOCK_WORDS};
use words::{bits, vectors};

// Each bit the other way round, where `flip` says so.
pub fn flipped(a: [u32; BLOCK_SEGMENTS], flip: bool) -> [u32; BLOCK_SEGMENTS]
    ensures { Flipped flip a result }
{
    let mask = bits::filled(flip);
    let mut r: [u32; BLOCK_SEGMENTS] = [0; BLOCK_SEGMENTS];
    for w in 0..BLOCK_SEGMENTS {
        r[w] = a[w] ^ mask;
    }
    r
}

// The common bits of a and b become the row that begins at `at`.
pub fn put_both(
    z: &mut [u32; BLOCK_WORDS],
    at: usize,
    a: [u32; BLOCK_SEGMENTS],
    b: [u32; BLOCK_SEGMENTS],
)
    requires { (length z.old ≡ block_words) × (at + block_segments ≤ block_words) }
    ensures { PutBoth a b z.old at z.new }
{
    for w in 0..BLOCK_SEGMENTS {
        z[at + w] = a[w] & b[w];
    }
}

// Row 0 of z, which is returned too: what exists in both x and y.
pub fn exist(
    x: &[u32; BLOCK_WORDS],
    y: &[u32; BLOCK_WORDS],
    z: &mut [u32; BLOCK_WORDS],
) -> [u32; BLOCK_SEGMENTS]
    requires { (length x.now ≡ block_words) × (length y.now ≡ block_words) × (length z.old ≡ block_words) }
    ensures { Existing x.now y.now z.new result }
{
    put_both(z, 0, vectors::part(x, 0), vectors::part(y, 0));
    vectors::part(z, 0)
}
