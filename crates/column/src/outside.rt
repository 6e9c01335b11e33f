// The lowest row that one body has and another of its format has not, for a slice and its column's existence. The two
// are gone through together, at most to the next marker or fill of either at a time: where a run says that nothing
// strays all its segments are passed at once. A run of ones may cover pad bits of the last segment: the lowest bit may
// be no row.
ghost use Rattle.std.specs.Prelude.{Bool, true, ◌≡◌, ℕ, ◌+◌, ◌*◌, ◌^◌, ◌≤◌, ◌<◌, length, get_or};
ghost use Rattle.meaning.specs.Limits.{most_rows, most_segments, most_dirty, word_bits};
ghost use Rattle.meaning.specs.Format.{width};
ghost use Rattle.laws.specs.Laws.{SoundFacts};
ghost use Rattle.laws.specs.Ahead.{Ahead};
ghost use Rattle.ewah.specs.declared.cursor.Piece.TheVariants.{Clean};
ghost use Rattle.ewah.specs.Cursors.{InOrder, pieces_from};
ghost use Rattle.bodies.specs.Walks.{span_of, behind};
ghost use Rattle.column.specs.Outside.{OverBits, Spells, Lowest, SeenIn, FoundIn, outside};

use bodies::cursor;
use ewah::cursor::{Cursor, Piece};
use meaning::Format;
use words::{bits, rows};

// What the next segments have: the lowest row, counted from the first of them, or so many segments that have none.
// Kept: a Result or ControlFlow of two u32 does not say which is a row and which a number of segments.
#[derive(Clone, Copy)]
pub enum Seen {
    Row(u32),
    Clear(u32),
}

// The bits of a word that another has not; a word of w bits stays one.
fn over(x: u32, e: u32) -> u32
    ensures { (w : ℕ) → w ≤ word_bits → x < 2 ^ w → OverBits w x e result }
{
    x & !e
}

// Segments of so many rows that are words of each body: one by one.
fn find(width: u32, slice: &[u32], exists: &[u32]) -> Option<u32>
    requires { (width ≤ word_bits) × (length slice.now ≤ most_segments) × (length slice.now ≡ length exists.now) }
    ensures { (p : ℕ → Bool) → Spells width p (λ i. get_or slice.now i 0) (λ i. get_or exists.now i 0) (length slice.now)
        → FoundIn (length slice.now * width) p result }
{
    for (i, &x) in slice.iter().enumerate() {
        let y = over(x, exists[i]);
        if y != 0 {
            return Some(i as u32 * width + bits::nth(y, 0));
        }
    }
    None
}

// Whether a piece is a run of that value.
fn is_run(piece: Piece, value: u32) -> bool
    ensures { result ≡ true → (n : ℕ) × (piece ≡ Clean value n) }
{
    matches!(piece, Piece::Clean(v, _) if v == value)
}

// The next n segments of both, at most to the next marker or fill of either. Where dirty words face a run that decides
// nothing, they are looked at one by one: in canonical bodies the first has a stray row.
fn look(format: Format, slice: &[u32], c: Cursor, exists: &[u32], e: Cursor, n: u32) -> Seen
    requires in_order { InOrder format slice.now c }
    requires in_order_2 { InOrder format exists.now e }
    requires le_n { (1 ≤ n) × (n ≤ most_segments) × (n ≤ span_of c) × (n ≤ span_of e)
        × (c.next + behind c.piece n ≤ length slice.now)
        × (e.next + behind e.piece n ≤ length exists.now) }
    ensures { (o : ℕ) → Ahead format slice.now o (pieces_from format slice.now c)
        → Ahead format exists.now o (pieces_from format exists.now e)
        → SeenIn (width format) n
        (λ k. outside format slice.now exists.now (o * width format + k)) result }
{
    let held = c.piece;
    let there = e.piece;
    if is_run(held, 0) {
        return Seen::Clear(n);
    }
    if is_run(there, 1) {
        return Seen::Clear(n);
    }
    match (held, there) {
        (Piece::Dirty(_), Piece::Dirty(_)) => {
            let at = c.next - 1;
            let from = e.next - 1;
            let count = n as usize;
            let width = rows::width(format);
            match find(width, &slice[at..at + count], &exists[from..from + count]) {
                Some(row) => Seen::Row(row),
                None => Seen::Clear(n),
            }
        }
        _ => {
            let y = over(cursor::word(format, held), cursor::word(format, there));
            if y != 0 {
                Seen::Row(bits::nth(y, 0))
            } else {
                Seen::Clear(1)
            }
        }
    }
}

// How many segments there are up to the next marker or fill of either, of so many that are left.
fn common(c: Cursor, e: Cursor, left: u32) -> u32
    requires { (c.dirty ≤ most_dirty) × (e.dirty ≤ most_dirty) × (1 ≤ span_of c) × (1 ≤ span_of e) × (1 ≤ left) }
    ensures { (1 ≤ result) × (result ≤ span_of c) × (result ≤ span_of e) × (result ≤ left) }
{
    cursor::span(c).min(cursor::span(e)).min(left)
}

// What the lowest bit r says of so many rows: past the last row it is a pad bit, and no row is found.
fn row_below(r: u32, rows: u32) -> Option<u32>
    ensures { (n : ℕ) (p : ℕ → Bool) → Lowest n p r → FoundIn rows p result }
{
    if r < rows { Some(r) } else { None }
}

// The lowest row of a slice of that many rows that does not exist.
pub fn first(format: Format, slice: &[u32], exists: &[u32], rows: u32) -> Option<u32>
    requires { (rows ≤ most_rows) × SoundFacts format rows slice.now × SoundFacts format rows exists.now }
    ensures { FoundIn rows (outside format slice.now exists.now) result }
{
    let width = rows::width(format);
    let count = rows::segments(format, rows);
    let mut c = cursor::open(format, slice);
    let mut e = cursor::open(format, exists);
    let mut o: u32 = 0;
    // Kept: the step is as many segments as were looked at, so no range goes over them.
    while o < count {
        let n = common(c, e, count - o);
        let seen = look(format, slice, c, exists, e, n);
        match seen {
            Seen::Row(r) => return row_below(o * width + r, rows),
            Seen::Clear(m) => {
                c = cursor::pass(format, slice, c, m);
                e = cursor::pass(format, exists, e, m);
                o += m;
            }
        }
    }
    None
}
