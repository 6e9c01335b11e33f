// The next block of one list, or the next run: chosen by the nearest end of a piece, and gathered.
ghost use Rattle.std.specs.Prelude.{◌≡◌, ◌≤◌, ◌<◌, length};
ghost use Rattle.meaning.specs.Limits.{most_value_column};
ghost use Rattle.meaning.specs.Segment.{segment_count};
ghost use Rattle.meaning.specs.Format.{width};
ghost use Rattle.meaning.specs.Index.{format_of, row_count};
ghost use Rattle.laws.specs.Laws.{IndexFacts};
ghost use Rattle.walk.specs.Queries.{Listed};
ghost use Rattle.blocks.specs.Blocks.{Placed, Cleared, NextPlaced, NextBlock};

use crate::choose;
use crate::choose::Step;
use ewah::cursor::Cursor;
use meaning::{BLOCK_WORDS, Format};

// The cursor of every place goes on from segment o, to `end` at most; row k of x becomes the words of place k, and is
// cleared behind the list's places, as it was before. There may be more cursors than places.
pub fn next(
    format: Format,
    index: &[u32],
    list: &[u32],
    cursors: &mut [Cursor],
    x: &mut [u32; BLOCK_WORDS],
    o: u32,
    end: u32,
    behind_run: bool,
) -> Step
    requires index_facts { IndexFacts index.now }
    requires listed { Listed index.now list.now }
    requires walking { Placed index.now list.now cursors.old o }
    requires cleared { Cleared list.now x.old }
    requires format_value { (format ≡ format_of index.now) × (1 ≤ length list.now) × (length list.now ≤ most_value_column)
        × (o < end) × (end ≤ segment_count (width (format_of index.now)) (row_count index.now)) }
    ensures block { NextPlaced index.now list.now o end result.n result.even
        cursors.new x.new }
    ensures as_many { length cursors.old ≡ length list.now → NextBlock index.now list.now o end result.n result.even
        cursors.new x.new }
{
    let near = gather::nearest(cursors);
    let step = choose::choose(near, o, end, behind_run);
    gather::gather(format, index, list, cursors, step.n, step.even, x);
    step
}
