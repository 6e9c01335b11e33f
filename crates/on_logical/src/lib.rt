// The public calls on two bitmaps of an index, or on one, as a body in canonical form, of the index's format.
// `zvonurel` passes them on, and says what every `ensures` settles.
#![tactic(auto)]

ghost use Rattle.std.specs.Prelude.{length};
ghost use Rattle.meaning.specs.Answer as meaning;
ghost use Rattle.answers.specs.Told.{Wrote};
ghost use Rattle.logical.specs.Combined.{combined};

use answers::refusal::Refusal;
use logical::Logical;
use on_bitmaps::check;

// What is asked of two bitmaps.
fn pair(op: Logical, index: &[u32], j: u32, k: u32, out: &mut [u32]) -> Result<usize, Refusal>
    ensures { Wrote (meaning.logical index.now (combined op) j k (length out.old))
        result out.old out.new }
{
    check(index)?;
    logical::pair(op, index, j, k, out)
}

// The rows that both have.
#[tactic(auto, unfolding(meaning::specs::Answer::and))]
pub fn and(index: &[u32], j: u32, k: u32, out: &mut [u32]) -> Result<usize, Refusal>
    ensures { Wrote (meaning.and index.now j k (length out.old))
        result out.old out.new }
{
    pair(Logical::And, index, j, k, out)
}

// The rows that one or both have.
#[tactic(auto, unfolding(meaning::specs::Answer::or))]
pub fn or(index: &[u32], j: u32, k: u32, out: &mut [u32]) -> Result<usize, Refusal>
    ensures { Wrote (meaning.or index.now j k (length out.old))
        result out.old out.new }
{
    pair(Logical::Or, index, j, k, out)
}

// The rows that just one of the two has.
#[tactic(auto, unfolding(meaning::specs::Answer::xor))]
pub fn xor(index: &[u32], j: u32, k: u32, out: &mut [u32]) -> Result<usize, Refusal>
    ensures { Wrote (meaning.xor index.now j k (length out.old))
        result out.old out.new }
{
    pair(Logical::Xor, index, j, k, out)
}

// The rows that j has and k has not.
#[tactic(auto, unfolding(meaning::specs::Answer::and_not))]
pub fn and_not(index: &[u32], j: u32, k: u32, out: &mut [u32]) -> Result<usize, Refusal>
    ensures { Wrote (meaning.and_not index.now j k (length out.old))
        result out.old out.new }
{
    pair(Logical::AndNot, index, j, k, out)
}

// The rows that bitmap k has not.
pub fn not(index: &[u32], k: u32, out: &mut [u32]) -> Result<usize, Refusal>
    ensures { Wrote (meaning.not_of index.now k (length out.old))
        result out.old out.new }
{
    check(index)?;
    logical::not(index, k, out)
}
