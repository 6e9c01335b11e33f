// Where a walk over the pieces of a body stands, and the next piece of an EWAH body. The walk itself is in `bodies`.
ghost use Rattle.std.specs.Prelude.{◌≤◌, length, drop};
ghost use Rattle.meaning.specs.Limits.{most_dirty};
ghost use Rattle.meaning.specs.Ewah.{pieces};
ghost use Rattle.meaning.specs.declared.Format.TheVariants.{Ewah};
ghost use Rattle.ewah.specs.Cursors.{Stands};

use crate::marker;

// What is left of a clean run, with its value, 0 or 1; or a dirty word. A clean run of no segments is the end.
#[derive(Clone, Copy)]
pub enum Piece {
    Clean(u32, u32),
    Dirty(u32),
}

// The piece it stands on, the word behind it, and how many dirty words are due there.
#[derive(Clone, Copy)]
pub struct Cursor {
    pub piece: Piece,
    pub next: usize,
    pub dirty: u32,
}

// The first of the dirty words that are due from word `next` on, or the end if the body has no more words.
pub fn load_dirty(body: &[u32], next: usize, dirty: u32) -> Cursor
    requires { (next ≤ length body.now) × (1 ≤ dirty) × (dirty ≤ most_dirty) }
    ensures { Stands Ewah body.now result (pieces dirty (drop next body.now)) }
{
    if next < body.len() {
        return Cursor {
            piece: Piece::Dirty(body[next]),
            next: next + 1,
            dirty: dirty - 1,
        };
    }
    Cursor {
        piece: Piece::Clean(0, 0),
        next,
        dirty: 0,
    }
}

// The first piece from the marker at word `next` on; idle markers are passed.
pub fn load(body: &[u32], next: usize) -> Cursor
    requires { next ≤ length body.now }
    ensures { Stands Ewah body.now result (pieces 0 (drop next body.now)) }
{
    for at in next..body.len() {
        let m = marker::read(body[at]);
        if m.clean != 0 {
            return Cursor {
                piece: Piece::Clean(m.value, m.clean),
                next: at + 1,
                dirty: m.dirty,
            };
        }
        if m.dirty != 0 {
            return load_dirty(body, at + 1, m.dirty);
        }
    }
    Cursor {
        piece: Piece::Clean(0, 0),
        next: body.len(),
        dirty: 0,
    }
}
