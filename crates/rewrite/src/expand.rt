// A WAH body read into plain words.
ghost use Rattle.std.specs.Prelude.{◌≡◌, ◌++◌, ◌+◌, ◌*◌, ◌≤◌, length, drop};
ghost use Rattle.meaning.specs.Limits.{most_rows};
ghost use Rattle.meaning.specs.Segment.{segment_count, from_rows};
ghost use Rattle.meaning.specs.declared.Format.TheVariants.{Wah};
ghost use Rattle.meaning.specs.Format.{rows_of};
ghost use Rattle.laws.specs.Laws.{WahFacts};
ghost use Rattle.repack.specs.Filling.{rows_done, Ready, Put};
ghost use Rattle.row_write.specs.Walking.{row_in, Gives};

use bodies::cursor;
use ewah::cursor::Piece;
use meaning::Format;
use repack::fill::Filler;
use repack::{fill, packer};
use row_write::piece;

// The first k rows of a piece more; a run's all have its value.
fn put(out: &mut [u32], s: Filler, piece: Piece, k: u32) -> Filler
    requires { Ready s × Gives piece k × (rows_done s + k ≤ 32 * length out.old) }
    ensures { Put (row_in piece) k s out.old out.new result }
{
    match piece {
        Piece::Clean(value, _) => fill::put_run(out, s, value, k),
        Piece::Dirty(x) => fill::put_word(out, s, packer::lowest(x as u64, k), k),
    }
}

// The first words are those of the body's rows, with no pad bit set; those behind stay.
pub fn expand(body: &[u32], rows: u32, out: &mut [u32])
    requires { (rows ≤ most_rows) × WahFacts rows body.now × (segment_count 32 rows ≤ length out.old) }
    ensures { out.new
        ≡ from_rows 32 rows (rows_of Wah body.now) ++ drop (segment_count 32 rows) out.old }
{
    let mut c = cursor::open(Format::Wah, body);
    let mut s = fill::start();
    let mut left = rows;
    // Kept: a loop by hand, (d): a turn takes a piece, with as many rows as that has, so no range has its turns.
    while left != 0 {
        let k = piece::rows_in(c, 31, left);
        s = put(out, s, c.piece, k);
        c = cursor::advance(Format::Wah, body, c, cursor::left(c));
        left -= k;
    }
    fill::finish(out, s);
}
