// A packer: rows that do not yet fill a segment.
ghost use Rattle.std.specs.Prelude.{◌≡◌, ◌≤◌, ◌<◌, ◌^◌, ◌%◌, leb};
ghost use Rattle.repack.specs.Packing.{Added, Split};

// So many rows, as the lowest bits of a word, the first row lowest.
#[derive(Clone, Copy)]
pub struct Packer {
    pub word: u64,
    pub have: u32,
}

// A segment's word, and the packer with the rows behind it.
#[derive(Clone, Copy)]
pub struct Taken {
    pub segment: u32,
    pub rest: Packer,
}

// The lowest n bits of a word.
pub fn lowest(word: u64, n: u32) -> u32
    requires { n ≤ 32 }
    ensures { result ≡ word % 2 ^ n }
{
    (word & ((1 << n) - 1)) as u32
}

// k rows more, the lowest bits of x.
pub fn add(p: Packer, x: u32, k: u32) -> Packer
    requires { (p.have < 32) × (p.word < 2 ^ p.have) × (k ≤ 32) × (x < 2 ^ k) }
    ensures { Added p x k result }
{
    let have = p.have;
    let behind = (x as u64) << have;
    Packer {
        word: p.word + behind,
        have: have + k,
    }
}

// Whether the rows fill a segment of w rows.
pub fn full(p: Packer, w: u32) -> bool
    ensures { result ≡ leb w p.have }
{
    w <= p.have
}

// The first w rows, and what is left.
pub fn take(p: Packer, w: u32) -> Taken
    requires { (w ≤ 32) × (w ≤ p.have) × (p.word < 2 ^ p.have) }
    ensures { Split w p result }
{
    Taken {
        segment: lowest(p.word, w),
        rest: Packer {
            word: p.word >> w,
            have: p.have - w,
        },
    }
}
