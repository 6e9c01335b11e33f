// The k-th value of a column, the pivot, from its top digit down. Of each digit it is enough to know how many rows have the digits so
// far and then the one that comes first: if these are fewer than are still wanted, they are all taken, and the digit is the other.
ghost use Rattle.std.specs.Prelude.{◌≡◌, ℕ, ◌-◌, ◌/◌, ◌^◌, ◌≤◌, ◌<◌, length};
ghost use Rattle.meaning.specs.Limits.{most_column};
ghost use Rattle.meaning.specs.Rows.{count_below};
ghost use Rattle.meaning.specs.Index.{row_count};
ghost use Rattle.column_meaning.specs.Columns.{existing, value_at};
ghost use Rattle.laws.specs.Pivot.{level};
ghost use Rattle.ranks.specs.Frames.{Column};
ghost use Rattle.ranks.specs.Found.{Top, Stepped, PivotOf};

use crate::scan;
use meaning::{MOST_COLUMN, Ranking};
use pivots::compare;
use words::copies;

// The value, and how many rows that have it are taken.
#[derive(Clone, Copy)]
pub struct Pivot {
    pub value: u32,
    pub take: u32,
}

// A column's existence, and its slices from place `from` of the list on.
fn top(list: &[u32], from: usize) -> [u32; MOST_COLUMN]
    requires { (1 ≤ from) × (from ≤ length list.now) × (length list.now ≤ most_column) }
    ensures { Top list.now from result }
{
    let mut r: [u32; MOST_COLUMN] = [0; MOST_COLUMN];
    let slices = &list[from..];
    r[0] = list[0];
    copies::copy(&mut r[1..slices.len() + 1], slices);
    r
}

// How many rows exist and have the value, in the digits from place `from` of the list on.
fn count_top(index: &[u32], list: &[u32], from: usize, value: u32) -> u32
    requires column { Column index.now list.now }
    requires le_from { (1 ≤ from) × (from < length list.now) × (value < 2 ^ (length list.now - from)) }
    ensures { result ≡ count_below (row_count index.now)
        (level (existing index.now list.now)
        (λ (s : ℕ). value_at index.now list.now s / 2 ^ (from - 1)) value) }
{
    let named = top(list, from);
    let len = list.len() - from + 1;
    scan::count(index, &named[..len], value)
}

// One digit more, where c rows have the digits so far and then the first one.
fn narrowed(p: Pivot, c: u32, first: u32) -> Pivot
    requires { (p.value < 2 ^ 31) × (first < 2) }
    ensures { Stepped p.value p.take c first result.value result.take }
{
    if c < p.take {
        return Pivot {
            value: 2 * p.value + (1 - first),
            take: p.take - c,
        };
    }
    Pivot {
        value: 2 * p.value + first,
        take: p.take,
    }
}

// Of k rows; of none it is a value that no row comes before, and none that has it is taken.
pub fn find(op: Ranking, index: &[u32], list: &[u32], k: u32) -> Pivot
    requires column { Column index.now list.now }
    requires k_bound { k ≤ count_below (row_count index.now) (existing index.now list.now) }
    ensures { PivotOf op index.now list.now k result.value result.take }
{
    let first = compare::lead(op);
    let mut p = Pivot { value: 0, take: k };
    for left in (1..list.len()).rev() {
        let c = count_top(index, list, left, 2 * p.value + first);
        let q = narrowed(p, c, first);
        p = q;
    }
    p
}
