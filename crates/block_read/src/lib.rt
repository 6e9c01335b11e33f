// The next segments of one body, as a row of words.
// Calls here have a `requires`; the public ones of `zvonurel` test their input first.
#![tactic(auto)]

ghost use Rattle.std.specs.Prelude.{true, false, ◌≡◌, [], ℕ, ◌+◌, ◌≤◌, length};
ghost use Rattle.meaning.specs.Limits.{block_segments};
ghost use Rattle.ewah.specs.declared.cursor.Piece.TheVariants.{Clean, Dirty};
ghost use Rattle.ewah.specs.Cursors.{InOrder, left_of, pieces_from};
ghost use Rattle.bodies.specs.Walks.{span_of};
ghost use Rattle.block_read.specs.Taken.{HasAhead, SpanTaken, RowTaken};

use bodies::cursor;
use ewah::cursor::{Cursor, Piece};
use meaning::Format;
use words::copies;

// The next segments of a clean run, as many as the row has words.
fn take_run(
    format: Format,
    body: &[u32],
    c: Cursor,
    value: u32,
    left: u32,
    row: &mut [u32],
) -> Cursor
    requires in_order { InOrder format body.now c }
    requires piece_value { (c.piece ≡ Clean value left) × (1 ≤ length row.old) × (length row.old ≤ left) }
    ensures { SpanTaken format body.now c (length row.old) row.new result }
{
    row.fill(cursor::segment(format, value));
    cursor::pass(format, body, c, row.len() as u32)
}

// The next dirty words, as many as the row has.
fn take_dirty(format: Format, body: &[u32], c: Cursor, row: &mut [u32]) -> Cursor
    requires in_order { InOrder format body.now c }
    requires has_ahead { HasAhead format body.now c (length row.old) }
    requires by_index { ((w : ℕ) × (c.piece ≡ Dirty w)) × (1 ≤ length row.old) × (length row.old ≤ c.dirty + 1) }
    ensures { SpanTaken format body.now c (length row.old) row.new result }
{
    let from = c.next - 1;
    copies::copy(row, &body[from..from + row.len()]);
    cursor::pass(format, body, c, row.len() as u32)
}

// The next segments, as many as the row has words, at most up to the next marker or fill.
fn take_span(format: Format, body: &[u32], c: Cursor, row: &mut [u32]) -> Cursor
    requires in_order { InOrder format body.now c }
    requires has_ahead { HasAhead format body.now c (length row.old) }
    requires le_n { (1 ≤ length row.old) × (length row.old ≤ span_of c) }
    ensures { SpanTaken format body.now c (length row.old) row.new result }
{
    let piece = c.piece;
    match piece {
        Piece::Clean(value, left) => take_run(format, body, c, value, left, row),
        Piece::Dirty(_) => take_dirty(format, body, c, row),
    }
}

// The next segments, as many as the row has words, span by span.
fn take_spans(format: Format, body: &[u32], from: Cursor, row: &mut [u32]) -> Cursor
    requires in_order { InOrder format body.now from }
    requires has_ahead { HasAhead format body.now from (length row.old) }
    requires from_value { left_of from.piece ≡ 0 → pieces_from format body.now from ≡ [] }
    ensures { SpanTaken format body.now from (length row.old) row.new result }
{
    let mut c = from;
    let mut done: usize = 0;
    // Kept: a turn goes on by a span, however long that is; a `for` has no such step.
    while done < row.len() {
        let end = done + (cursor::span(c) as usize).min(row.len() - done);
        let d = take_span(format, body, c, &mut row[done..end]);
        c = d;
        done = end;
    }
    c
}

// The next n segments of one piece: their word is kept once.
fn take_even(format: Format, body: &[u32], c: Cursor, row: &mut [u32], n: u32) -> Cursor
    requires in_order { InOrder format body.now c }
    requires row_len { (1 ≤ length row.old) × (1 ≤ n) × (n ≤ left_of c.piece) }
    ensures { RowTaken format body.now c n true row.old 0 row.new result }
{
    let piece = c.piece;
    row[0] = cursor::word(format, piece);
    cursor::advance(format, body, c, n)
}

// The next n segments as a row: all of them alike, within one piece, or at most a block's.
pub fn take(format: Format, body: &[u32], c: Cursor, row: &mut [u32], n: u32, even: bool) -> Cursor
    requires in_order { InOrder format body.now c }
    requires has_ahead { HasAhead format body.now c n }
    requires c_value { left_of c.piece ≡ 0 → pieces_from format body.now c ≡ [] }
    requires row_len { (block_segments ≤ length row.old) × (1 ≤ n)
        × (even ≡ true → n ≤ left_of c.piece) × (even ≡ false → n ≤ block_segments) }
    ensures { RowTaken format body.now c n even row.old 0 row.new result }
{
    if even {
        return take_even(format, body, c, row, n);
    }
    take_spans(format, body, c, &mut row[..n as usize])
}
