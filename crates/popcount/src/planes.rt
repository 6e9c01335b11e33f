// Counters that lie across vectors, the planes: at each place a plane has one binary digit of how many bits were set
// there so far. The carries out of the highest plane leave with each block. The contracts speak of sums over all places
// alone.
ghost use Rattle.std.specs.Prelude.{◌≡◌, ◌+◌, ◌*◌, ◌≤◌};
ghost use Rattle.popcount.specs.Counts.{pair_size, block_size, set_bits, set_in};
ghost use Rattle.popcount.specs.Weights.{summed, weight};

use crate::{BLOCK, vector};
use vector::LANES;
use words::vectors;
use words::vectors::Sums;

// How many words two vectors have.
const PAIR: usize = 2 * LANES;

// The planes by the weight of their digits; `sixteens` are the carries of the last block, and no plane.
#[derive(Clone, Copy)]
pub struct Planes {
    pub ones: [u32; LANES],
    pub twos: [u32; LANES],
    pub fours: [u32; LANES],
    pub eights: [u32; LANES],
    pub sixteens: [u32; LANES],
}

// Nothing counted.
pub fn empty() -> Planes
    ensures { weight result ≡ 0 }
{
    Planes {
        ones: [0; LANES],
        twos: [0; LANES],
        fours: [0; LANES],
        eights: [0; LANES],
        sixteens: [0; LANES],
    }
}

// The two vectors of words from `at` on added to a vector of ones.
fn add_pair(block: &[u32; BLOCK], at: usize, ones: [u32; LANES]) -> Sums<LANES>
    requires { at + pair_size ≤ block_size }
    ensures { summed result ≡ set_in block.now at pair_size + set_bits ones }
{
    vectors::add(
        vectors::part(block, at),
        vectors::part(block, at + LANES),
        ones,
    )
}

// The carries of two sums added to a vector of their weight.
fn add_carries(s: Sums<LANES>, t: Sums<LANES>, plane: [u32; LANES]) -> Sums<LANES>
    ensures { summed result ≡ set_bits s.carries + set_bits t.carries + set_bits plane }
{
    vectors::add(s.carries, t.carries, plane)
}

// A block of words added to the planes: 8 pairs of vectors, whose carries are twos, theirs fours, theirs eights, and theirs the
// sixteens.
pub fn add_block(block: &[u32; BLOCK], p: Planes) -> Planes
    ensures { weight result + 16 * set_bits result.sixteens ≡ set_in block.now 0 block_size + weight p }
{
    let a0 = add_pair(block, 0, p.ones);
    let a1 = add_pair(block, PAIR, a0.digits);
    let a2 = add_pair(block, 2 * PAIR, a1.digits);
    let a3 = add_pair(block, 3 * PAIR, a2.digits);
    let a4 = add_pair(block, 4 * PAIR, a3.digits);
    let a5 = add_pair(block, 5 * PAIR, a4.digits);
    let a6 = add_pair(block, 6 * PAIR, a5.digits);
    let a7 = add_pair(block, 7 * PAIR, a6.digits);
    let b0 = add_carries(a0, a1, p.twos);
    let b1 = add_carries(a2, a3, b0.digits);
    let b2 = add_carries(a4, a5, b1.digits);
    let b3 = add_carries(a6, a7, b2.digits);
    let c0 = add_carries(b0, b1, p.fours);
    let c1 = add_carries(b2, b3, c0.digits);
    let d = add_carries(c0, c1, p.eights);
    let ones = a7.digits;
    let twos = b3.digits;
    let fours = c1.digits;
    let eights = d.digits;
    let sixteens = d.carries;
    Planes {
        ones,
        twos,
        fours,
        eights,
        sixteens,
    }
}

// How many set bits the planes hold.
pub fn weigh(p: Planes) -> u32
    ensures { result ≡ weight p }
{
    vector::set_bits(p.ones)
        + 2 * vector::set_bits(p.twos)
        + 4 * vector::set_bits(p.fours)
        + 8 * vector::set_bits(p.eights)
}
