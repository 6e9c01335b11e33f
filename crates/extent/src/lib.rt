// The first and the last row of the piece that a row lies in, from where its segment is written.
#![tactic(auto)]

ghost use Rattle.std.specs.Prelude.{◌≡◌, ◌+◌, ◌-◌, ◌*◌, ◌≤◌, ◌<◌, min};
ghost use Rattle.meaning.specs.Limits.{most_rows, most_segments, word_bits};
ghost use Rattle.meaning.specs.Extent.{extent_of, answer_with};

use meaning::Row;

// Where a segment is written: its word, and the segments of the piece that has it, `size` of them behind `from` others.
#[derive(Clone, Copy)]
pub struct Place {
    pub word: u32,
    pub from: u32,
    pub size: u32,
}

// The last row of a piece whose segments end before row `end`: pad bits are no rows.
fn last_row(end: u32, rows: u32) -> u32
    requires { (1 ≤ end) × (1 ≤ rows) }
    ensures { result ≡ min rows end - 1 }
{
    if rows < end {
        return rows - 1;
    }
    end - 1
}

// The answer on a row that is set or not, of `rows` rows in segments of `width`, whose piece is the `size` segments
// behind `from` others.
pub fn row(set: bool, from: u32, size: u32, width: u32, rows: u32) -> Row
    requires { (1 ≤ rows) × (rows ≤ most_rows) × (from + size ≤ most_segments)
        × (1 ≤ (from + size) * width) × ((from + size) * width < rows + word_bits) }
    ensures { result ≡ answer_with set (extent_of width rows (record { from = from; size = size })) }
{
    Row {
        set: set,
        first: from * width,
        last: last_row((from + size) * width, rows),
    }
}
