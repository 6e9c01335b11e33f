// How far it is to the nearest end of a piece, over two lists.
ghost use Rattle.pairs.specs.Passes.{Near};

use ewah::cursor::Cursor;
use meaning::BLOCK_SEGMENTS;

// Among the places of one query and those of another. Where one of the first ends within a block the others are not looked
// at: a block it is.
pub fn nearest(p: &[Cursor], q: &[Cursor]) -> u32
    ensures { Near p.now q.now result }
{
    let near = gather::nearest(p);
    if (near as usize) < BLOCK_SEGMENTS {
        return near;
    }
    near.min(gather::nearest(q))
}
