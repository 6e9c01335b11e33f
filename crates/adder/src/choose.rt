// What depends on which of two numbers is the smaller, and so is known only when their difference has its last carry.
ghost use Rattle.std.specs.Prelude.{◌≡◌, ◌<◌, length};
ghost use Rattle.meaning.specs.Limits.{most_value_column, block_words};
ghost use Rattle.column_meaning.specs.Column.{pair_value};
ghost use Rattle.meaning.specs.declared.Pairing.TheVariants.{Smaller, DifferenceOrZero};
ghost use Rattle.adder.specs.Blocks.{ChosenBy};
ghost use Rattle.adder.specs.Digits.{Paired};

use crate::{chain, rows};
use meaning::{BLOCK_SEGMENTS, BLOCK_WORDS};
use words::vectors;

// The bits of b where m has one, and those of a elsewhere.
fn choice(
    a: [u32; BLOCK_SEGMENTS],
    b: [u32; BLOCK_SEGMENTS],
    m: [u32; BLOCK_SEGMENTS],
) -> [u32; BLOCK_SEGMENTS]
    ensures { ChosenBy a b m result }
{
    let mut r: [u32; BLOCK_SEGMENTS] = [0; BLOCK_SEGMENTS];
    for w in 0..BLOCK_SEGMENTS {
        r[w] = a[w] ^ ((a[w] ^ b[w]) & m[w]);
    }
    r
}

// The smaller of the two numbers: y's digits where x is no less, and else x's. What is there of the difference is overwritten.
pub fn smaller(x: &[u32; BLOCK_WORDS], y: &[u32; BLOCK_WORDS], z: &mut [u32; BLOCK_WORDS], n: usize)
    requires { (n < most_value_column) × (length x.now ≡ block_words)
        × (length y.now ≡ block_words) × (length z.old ≡ block_words) }
    ensures { Paired (pair_value Smaller) x.now y.now n z.new }
{
    let not_less = chain::add_rows::<true>(x, y, z, n);
    let exist = vectors::part(z, 0);
    for i in 0..n {
        let at = (i + 1) * BLOCK_SEGMENTS;
        let chosen = choice(vectors::part(x, at), vectors::part(y, at), not_less);
        rows::put_both(z, at, exist, chosen);
    }
}

// The difference, whose digits stay where x is no less; elsewhere it is 0.
pub fn difference_or_zero(
    x: &[u32; BLOCK_WORDS],
    y: &[u32; BLOCK_WORDS],
    z: &mut [u32; BLOCK_WORDS],
    n: usize,
)
    requires { (n < most_value_column) × (length x.now ≡ block_words)
        × (length y.now ≡ block_words) × (length z.old ≡ block_words) }
    ensures { Paired (pair_value DifferenceOrZero) x.now y.now n z.new }
{
    let not_less = chain::add_rows::<true>(x, y, z, n);
    for i in 0..n {
        let at = (i + 1) * BLOCK_SEGMENTS;
        let digits = vectors::part::<BLOCK_SEGMENTS>(z, at);
        rows::put_both(z, at, digits, not_less);
    }
}
