// A query: a cursor for each place of a list of bitmaps, in an array that is lent as a slice of as many cursors as the list has places.
use ewah::cursor::{Cursor, Piece};

// A cursor on no body: what a query holds before `survey::open`.
pub const ENDED: Cursor = Cursor {
    piece: Piece::Clean(0, 0),
    next: 0,
    dirty: 0,
};
