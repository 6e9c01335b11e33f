// Digits from the lowest up, each with the carry of those below it.
ghost use Rattle.std.specs.Prelude.{◌≡◌, ◌<◌, true, cond, length};
ghost use Rattle.meaning.specs.Limits.{most_value_column, block_words};
ghost use Rattle.column_meaning.specs.Column.{pair_value};
ghost use Rattle.meaning.specs.declared.Pairing.TheVariants.{Sum, Difference};
ghost use Rattle.adder.specs.Digits.{Paired, NotLess};

use crate::rows;
use meaning::{BLOCK_SEGMENTS, BLOCK_WORDS};
use words::{bits, vectors};

// The sum of each word of the rows of x and y: which rows exist in both, and the n digits of their sums. Where FLIP says so their
// difference in two's complement: y's digits are flipped, and one more is carried into the lowest. Of a difference the last carry,
// which is returned, is set where nothing had to be borrowed: where x is no less than y.
pub fn add_rows<const FLIP: bool>(
    x: &[u32; BLOCK_WORDS],
    y: &[u32; BLOCK_WORDS],
    z: &mut [u32; BLOCK_WORDS],
    n: usize,
) -> [u32; BLOCK_SEGMENTS]
    requires { (n < most_value_column) × (length x.now ≡ block_words)
        × (length y.now ≡ block_words) × (length z.old ≡ block_words) }
    ensures { Paired (pair_value (cond FLIP Difference Sum)) x.now y.now n z.new
        × (FLIP ≡ true → NotLess x.now y.now n result) }
{
    let exist = rows::exist(x, y, z);
    let mut carry = [bits::filled(FLIP); BLOCK_SEGMENTS];
    for i in 0..n {
        let at = (i + 1) * BLOCK_SEGMENTS;
        let s = vectors::add(
            vectors::part(x, at),
            rows::flipped(vectors::part(y, at), FLIP),
            carry,
        );
        rows::put_both(z, at, exist, s.digits);
        let carries = s.carries;
        carry = carries;
    }
    carry
}
