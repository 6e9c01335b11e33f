// A column's next segments as a block: a row of words for each place. The words of row 0 say which rows of the bitmaps exist, those of
// row i + 1 have digit i of their values. Whole rows of words are taken into local arrays, at which nothing else points, so that the
// machine works on many words at once.
#![tactic(auto)]

ghost use Rattle.std.specs.Prelude.{◌≡◌, ◌<◌, length};
ghost use Rattle.meaning.specs.Limits.{most_value_column, block_words};
ghost use Rattle.column_meaning.specs.Column.{pair_value};
ghost use Rattle.adder.specs.Digits.{Paired};

use meaning::{BLOCK_WORDS, Pairing};

mod chain;
mod choose;
pub mod rows;

// What an operation makes of each word of the rows of x and y: which rows exist in both, and the n digits of their values.
pub fn pair(
    op: Pairing,
    x: &[u32; BLOCK_WORDS],
    y: &[u32; BLOCK_WORDS],
    z: &mut [u32; BLOCK_WORDS],
    n: usize,
)
    requires { (n < most_value_column) × (length x.now ≡ block_words)
        × (length y.now ≡ block_words) × (length z.old ≡ block_words) }
    ensures { Paired (pair_value op) x.now y.now n z.new }
{
    match op {
        Pairing::Sum => {
            chain::add_rows::<false>(x, y, z, n);
        }
        Pairing::Difference => {
            chain::add_rows::<true>(x, y, z, n);
        }
        Pairing::Smaller => {
            choose::smaller(x, y, z, n);
        }
        Pairing::DifferenceOrZero => {
            choose::difference_or_zero(x, y, z, n);
        }
    }
}
