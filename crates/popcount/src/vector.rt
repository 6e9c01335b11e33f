// Vectors: as many words as the machine works on at once, in local arrays. Bit j of word w is one of their places.
ghost use Rattle.std.specs.Prelude.{◌≡◌, ◌*◌, ◌≤◌};
ghost use Rattle.popcount.specs.Counts.{lanes, set_bits};

use words::bits;

// How many words a vector has.
pub const LANES: usize = 4;

// How many bits are set.
pub fn set_bits(a: [u32; LANES]) -> u32
    ensures { (result ≡ set_bits a) × (result ≤ lanes * 32) }
{
    let mut n = 0;
    for w in 0..LANES {
        n += bits::count(a[w]);
    }
    n
}
