// A body written anew in either format: its rows go from segments of one width to those of the other, with no plain
// copy.
ghost use Rattle.std.specs.Prelude.{◌≡◌, true, ◌≤◌, length};
ghost use Rattle.meaning.specs.Limits.{most_rows};
ghost use Rattle.meaning.specs.Format.{rows_of, canonical};
ghost use Rattle.laws.specs.Laws.{SoundFacts};
ghost use Rattle.row_write.specs.Packing.{Rewritten};

use bodies::cursor;
use body_write::sink::Sink;
use meaning::Format;
use row_write::{output, piece};
use words::rows;

// The canonical body of the rows of a sound one goes to `out`. How many words it has.
pub fn rewrite<S: Sink>(from: Format, to: Format, body: &[u32], rows: u32, out: &mut S) -> usize
    requires rows_le_most_rows { (rows ≤ most_rows) × SoundFacts from rows body.now }
    requires body_in_bounds { S.stores ≡ true
        → length (canonical to rows (rows_of from body.now)) ≤ length (S.words out.old) }
    ensures rewritten { Rewritten to rows (rows_of from body.now) (S.words out.old) S.stores (S.words out.new) result }
    ensures same { (S.name out.new ≡ S.name out.old) × (length (S.words out.new) ≡ length (S.words out.old)) }
{
    let width = rows::width(from);
    let mut c = cursor::open(from, body);
    let mut o = output::start(to);
    let mut left = rows;
    // Kept: a loop by hand, (d): a turn takes a piece, with as many rows as that has, so no range has its turns.
    while left != 0 {
        let k = piece::rows_in(c, width, left);
        o = output::put(to, out, o, c.piece, k);
        c = cursor::advance(from, body, c, cursor::left(c));
        left -= k;
    }
    output::finish(to, out, o)
}
