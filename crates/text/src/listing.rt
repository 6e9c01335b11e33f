// The set rows of a body, a line each, in chunks as large as a buffer. The body is walked once, piece by piece.
ghost use Rattle.std.specs.Prelude.{◌≡◌, ◌+◌, ◌*◌, ◌/◌, ◌≤◌, ◌<◌};
ghost use Rattle.std.proofs.Props.{props};
ghost use Rattle.text.specs.Standings.{Covers, Standing, NoneEmpty-prop, ValueLow-prop, HeldIn-prop};

use crate::lines;
use arrayvec::ArrayString;
use bodies::cursor;
use ewah::cursor::Cursor;
use meaning::Format;
use words::{bits, rows};

// The first `rows` rows of a body, from `row` on: which bit of its segment that is, and the cursor at the segment.
#[derive(Clone, Copy)]
pub struct Listing<'a> {
    pub format: Format,
    pub body: &'a [u32],
    pub rows: u32,
    pub cursor: Cursor,
    pub row: u32,
    pub bit: u32,
    ghost covers: { Covers format body.now rows } by { Prim.hlevel (props, NoneEmpty-prop) },
    ghost standing: { Standing format body.now cursor row bit } by { Prim.hlevel (props, NoneEmpty-prop, ValueLow-prop, HeldIn-prop) },
}

impl<'a> Listing<'a> {
    ghost use Rattle.arrayvec.specs.ArrayString.{array_string_len};
    ghost use Rattle.meaning.specs.Format.{width};
    ghost use Rattle.ewah.specs.Cursors.{left_of};
    ghost use Rattle.text.specs.Listings.{SameRows, Stepped, Chunk};

    // At row 0.
    pub fn new(format: Format, body: &'a [u32], rows: u32) -> Listing<'a>
        requires { Covers format body.now rows }
        ensures of { (result.format ≡ format) × (result.body.now ≡ body.now) × (result.rows ≡ rows) }
        ensures row { result.row ≡ 0 }
    {
        Listing {
            format,
            body,
            rows,
            cursor: cursor::open(format, body),
            row: 0,
            bit: 0,
        }
    }

    // To the first row behind the piece.
    fn skip(&mut self)
        requires { self.old.row < self.old.rows }
        ensures of { SameRows self.old self.new }
        ensures row { self.new.row
            ≡ (self.old.row / width self.old.format + left_of self.old.cursor.piece) * width self.old.format }
    {
        let n = cursor::left(self.cursor);
        self.row = self.row - self.bit + n * rows::width(self.format);
        self.cursor = cursor::advance(self.format, self.body, self.cursor, n);
        self.bit = 0;
    }

    // To the next row.
    fn next(&mut self)
        requires { self.old.row < self.old.rows }
        ensures of { SameRows self.old self.new }
        ensures row { self.new.row ≡ self.old.row + 1 }
    {
        self.row += 1;
        self.bit += 1;
        if self.bit == rows::width(self.format) {
            self.cursor = cursor::advance(self.format, self.body, self.cursor, 1);
            self.bit = 0;
        }
    }

    // Past a piece of zeros; else past one row, whose line is appended if it is set.
    fn step<const N: usize>(&mut self, out: &mut ArrayString<N>)
        requires row { self.old.row < self.old.rows }
        requires room { array_string_len out.old + 11 ≤ N }
        ensures { Stepped self.old out.old.bytes self.new out.new.bytes }
    {
        let word = cursor::word(self.format, self.cursor.piece);
        if word == 0 {
            self.skip();
            return;
        }
        if bits::has(word, self.bit) {
            lines::push(out, self.row);
        }
        self.next();
    }

    // As many lines as fit.
    pub fn fill<const N: usize>(&mut self, out: &mut ArrayString<N>)
        ensures { Chunk N self.old out.old.bytes self.new out.new.bytes }
    {
        // Kept: a step passes over a whole piece where that is one of zeros, and a row is taken only where its line fits.
        while self.row < self.rows && lines::LINE_BYTES <= out.remaining_capacity() {
            self.step(out);
        }
    }
}
