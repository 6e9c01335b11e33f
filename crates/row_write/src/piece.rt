// The rows of the piece that a cursor stands on.
ghost use Rattle.std.specs.Prelude.{◌≡◌, ◌*◌, ◌<◌, ◌^◌, min};
ghost use Rattle.ewah.specs.Cursors.{left_of};

use bodies::cursor;
use ewah::cursor::Cursor;

// How many of the rows that are left it has, in segments of so many rows: the last segment's pad bits are none.
pub fn rows_in(c: Cursor, width: u32, left: u32) -> u32
    requires { left_of c.piece * width < 2 ^ 32 }
    ensures { result ≡ min (left_of c.piece * width) left }
{
    (cursor::left(c) * width).min(left)
}
