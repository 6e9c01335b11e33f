// How many bits of words are set: their population count. The target has no instruction for it, and to count a word by
// shifts and sums takes many. So blocks of 64 words go through carry-save adders, which leave one word in 16 to be
// counted; what is behind the last whole block is counted word by word.
#![tactic(auto)]

ghost use Rattle.std.specs.Prelude.{◌≡◌, ◌≤◌, length};
ghost use Rattle.meaning.specs.Limits.{most_segments};
ghost use Rattle.meaning.specs.Segment.{ones};

use words::bits;

mod planes;
mod vector;

// How many words go through the adders together: 16 vectors.
pub const BLOCK: usize = 16 * vector::LANES;

// How many bits of few words are set, which are counted one by one.
pub fn count_each(ws: &[u32]) -> u32
    requires { length ws.now ≤ most_segments }
    ensures { result ≡ ones 32 ws.now }
{
    let mut n = 0;
    for x in ws {
        n += bits::count(*x);
    }
    n
}

// How many bits of many words are set.
pub fn count(ws: &[u32]) -> u32
    requires { length ws.now ≤ most_segments }
    ensures { result ≡ ones 32 ws.now }
{
    let (blocks, behind) = ws.as_chunks::<BLOCK>();
    let mut p = planes::empty();
    let mut n = 0;
    for block in blocks {
        p = planes::add_block(block, p);
        n += vector::set_bits(p.sixteens);
    }
    planes::weigh(p) + 16 * n + count_each(behind)
}
