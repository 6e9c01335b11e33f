// A cursor over the pieces of a body, one after the other; a clean run may be taken in parts.
// Kept: functions of a cursor, and no methods: its type stands in `ewah`, where no format is known, so a method would part `span` from `advance` and `pass`.
ghost use Rattle.std.specs.Prelude.{◌≡◌, ◌+◌, ◌≤◌, ◌<◌, length, drop};
ghost use Rattle.meaning.specs.Limits.{most_dirty};
ghost use Rattle.meaning.specs.Segment.{fill};
ghost use Rattle.meaning.specs.Piece.{NoneEmpty};
ghost use Rattle.meaning.specs.Wah.{wah_pieces};
ghost use Rattle.meaning.specs.Format.{width, pieces_of};
ghost use Rattle.meaning.specs.declared.Format.TheVariants.{Wah};
ghost use Rattle.laws.specs.Ahead.{rest_of, advanced};
ghost use Rattle.ewah.specs.Cursors.{Stands, InOrder, ValueLow, most_due, left_of, pieces_from};
ghost use Rattle.bodies.specs.Walks.{PieceIs, word_of, span_of, behind, Passes};

use ewah::cursor::{Cursor, Piece};
use ewah::{cursor, marker};
use meaning::Format;

// The piece of a WAH word: a fill is a clean run, and a literal a dirty word.
fn wah_piece(x: u32) -> Piece
    ensures { PieceIs x result }
{
    if wah::word::is_fill(x) {
        let fill = wah::word::read(x);
        return Piece::Clean(fill.value, fill.count);
    }
    Piece::Dirty(x)
}

// The piece of a WAH body at word `next`.
fn load_wah(body: &[u32], next: usize) -> Cursor
    requires { (next ≤ length body.now) × NoneEmpty (wah_pieces (drop next body.now)) }
    ensures { Stands Wah body.now result (wah_pieces (drop next body.now)) }
{
    if next < body.len() {
        return Cursor {
            piece: wah_piece(body[next]),
            next: next + 1,
            dirty: 0,
        };
    }
    Cursor {
        piece: Piece::Clean(0, 0),
        next,
        dirty: 0,
    }
}

// The first piece from word `next` on, where so many dirty words are due.
// Only EWAH has such, so they come before the switch.
fn load(format: Format, body: &[u32], next: usize, dirty: u32) -> Cursor
    requires next_in_bounds { (next ≤ length body.now) × (dirty ≤ most_due format) }
    requires none_empty { NoneEmpty (rest_of format dirty (drop next body.now)) }
    ensures { Stands format body.now result (rest_of format dirty (drop next body.now)) }
{
    if dirty != 0 {
        return cursor::load_dirty(body, next, dirty);
    }
    match format {
        Format::Ewah => cursor::load(body, next),
        Format::Wah => load_wah(body, next),
    }
}

// On the first piece of a body.
pub fn open(format: Format, body: &[u32]) -> Cursor
    requires { NoneEmpty (pieces_of format body.now) }
    ensures { Stands format body.now result (pieces_of format body.now) }
{
    load(format, body, 0, 0)
}

// How many segments the piece has left: 0 only at the end.
pub fn left(c: Cursor) -> u32
    ensures { result ≡ left_of c.piece }
{
    match c.piece {
        Piece::Clean(_, n) => n,
        Piece::Dirty(_) => 1,
    }
}

// The word of a clean segment.
pub fn segment(format: Format, value: u32) -> u32
    requires { value < 2 }
    ensures { result ≡ fill (width format) value }
{
    match format {
        Format::Ewah => marker::segment(value),
        Format::Wah => wah::word::segment(value),
    }
}

// The word of a piece's segments.
pub fn word(format: Format, piece: Piece) -> u32
    requires { ValueLow piece }
    ensures { result ≡ word_of format piece }
{
    match piece {
        Piece::Clean(value, _) => segment(format, value),
        Piece::Dirty(x) => x,
    }
}

// n segments on, at most to the piece's end.
pub fn advance(format: Format, body: &[u32], c: Cursor, n: u32) -> Cursor
    requires in_order { InOrder format body.now c }
    requires le_n { 1 ≤ n }
    requires n_bound { n ≤ left_of c.piece }
    ensures { Stands format body.now result (advanced n (pieces_from format body.now c)) }
{
    match c.piece {
        Piece::Clean(value, k) => {
            if n < k {
                return Cursor {
                    piece: Piece::Clean(value, k - n),
                    ..c
                };
            }
        }
        Piece::Dirty(_) => {}
    }
    load(format, body, c.next, c.dirty)
}

// How many segments there are up to the next marker or fill: what is left of a run, or the dirty words from the
// cursor's on. In WAH a literal stands alone.
pub fn span(c: Cursor) -> u32
    requires { c.dirty ≤ most_dirty }
    ensures { result ≡ span_of c }
{
    match c.piece {
        Piece::Clean(_, n) => n,
        Piece::Dirty(_) => c.dirty + 1,
    }
}

// n segments on, at most as many as `span` says.
pub fn pass(format: Format, body: &[u32], c: Cursor, n: u32) -> Cursor
    requires in_order { InOrder format body.now c }
    requires le_n { (1 ≤ n) × (n ≤ span_of c) × (c.next + behind c.piece n ≤ length body.now) }
    ensures { Passes format body.now c n result }
{
    match c.piece {
        Piece::Clean(_, _) => advance(format, body, c, n),
        Piece::Dirty(_) => load(format, body, c.next + (n - 1) as usize, c.dirty - (n - 1)),
    }
}
