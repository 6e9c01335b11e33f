// What an answer has of a stretch: which rows, by how many bitmaps of the list have them.
ghost use Rattle.std.specs.Prelude.{◌≡◌, ℕ, ◌+◌, ◌≤◌, ◌<◌, eqb, length, get_or};
ghost use Rattle.meaning.specs.Limits.{most_named, histogram_counts};
ghost use Rattle.meaning.specs.Segment.{is_set, all_set};
ghost use Rattle.meaning.specs.Format.{width};
ghost use Rattle.meaning.specs.declared.Format.{Format};
ghost use Rattle.counters.specs.Counters.{count_at};
ghost use Rattle.merge.specs.Operations.{chosen};
ghost use Rattle.merge.specs.Parts.{Evaluated};

use meaning::PLANES;
use walk::survey::Survey;
use words::rows;

// A row is in the answer where at least so many of the list have it; where exactly so many have it; where the table
// has a 1 at the number that have it.
#[derive(Clone, Copy)]
pub enum Operation {
    AtLeast(u32),
    Exactly(u32),
    Table,
}

// Whether a row that c of the list have is in the answer.
fn holds(op: Operation, table: &[u32], c: u32) -> bool
    ensures { result ≡ chosen op table.now c }
{
    match op {
        Operation::AtLeast(t) => t <= c,
        Operation::Exactly(t) => c == t,
        Operation::Table => entry_is_one(table, c),
    }
}

// Whether the table has a 1 at c.
fn entry_is_one(table: &[u32], c: u32) -> bool
    ensures { result ≡ eqb (get_or table.now c 0) 1 }
{
    table.get(c as usize) == Some(&1)
}

// The rows of a segment that are in the answer, where base of the list have every row of it, and the counters' number
// more, which never passes `most`.
fn word(op: Operation, table: &[u32], base: u32, most: u32, planes: [u32; PLANES]) -> u32
    requires { (base + most ≤ most_named) × (length table.now ≤ histogram_counts)
        × ((j : ℕ) → j < 32 → count_at planes j ≤ most) }
    ensures { (j : ℕ) → j < 32 → is_set result j ≡ chosen op table.now (base + count_at planes j) }
{
    match op {
        Operation::AtLeast(t) => {
            if t <= base {
                return u32::MAX;
            }
            counters::at_least(planes, most, t - base)
        }
        Operation::Exactly(t) => {
            if t < base {
                return 0;
            }
            counters::equals(planes, most, t - base)
        }
        Operation::Table => counters::by_table(planes, base, most, table),
    }
}

// The segments of the answer in one stretch: a clean run, with its value and its length; or one word.
#[derive(Clone, Copy)]
pub enum Part {
    Run(u32, u32),
    Word(u32),
}

// The part of the answer in a stretch of n segments, of whose last one the mask has the rows; `full` is the word of a
// segment of ones. With no dirty word it is a run, also over a last segment with pad bits.
pub fn evaluate(op: Operation, table: &[u32], s: Survey, mask: u32, full: u32) -> Part
    requires { (length table.now ≤ histogram_counts) × (s.ones + s.dirty ≤ most_named)
        × ((j : ℕ) → j < 32 → count_at s.planes j ≤ s.dirty) }
    ensures { (F : Format) → full ≡ all_set (width F) → Evaluated F op table.now s mask result }
{
    if s.dirty != 0 {
        return Part::Word(rows::spelled(word(op, table, s.ones, s.dirty, s.planes), mask, full));
    }
    if holds(op, table, s.ones) {
        return Part::Run(1, s.least);
    }
    Part::Run(0, s.least)
}
