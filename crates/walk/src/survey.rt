// What the cursors of a query stand on: the stretch up to the first end of a piece, and how many bitmaps have each row there.
ghost use Rattle.std.specs.Prelude.{◌≡◌, List, ℕ, ◌≤◌, ◌<◌, length, get_or};
ghost use Rattle.meaning.specs.Limits.{most_named};
ghost use Rattle.laws.specs.Laws.{HeadFacts, EntryFacts, IndexFacts};
ghost use Rattle.meaning.specs.Index.{format_of, bitmap_count, body_at};
ghost use Rattle.ewah.specs.Cursors.{ValueLow, InOrder, left_of};
ghost use Rattle.walk.specs.Queries.{cursor_of, Listed, Standing};
ghost use Rattle.walk.specs.Surveys.{Room, Weighed, Surveyed, Moved, MovedAll};

use bodies::cursor;
use ewah::cursor::{Cursor, Piece};
use meaning::{Format, PLANES};

// The fewest segments that a piece has left, the places in a run of ones, those on a dirty word, and for each row the
// dirty words that have it, as counters.
#[derive(Clone, Copy)]
pub struct Survey {
    pub least: u32,
    pub ones: u32,
    pub dirty: u32,
    pub planes: [u32; PLANES],
}

// Of no places.
pub fn nothing() -> Survey
    ensures { (cs : List Cursor) → Surveyed cs 0 result }
{
    Survey {
        least: u32::MAX,
        ones: 0,
        dirty: 0,
        planes: [0; PLANES],
    }
}

// One piece more.
fn weigh(s: Survey, piece: Piece) -> Survey
    requires value_low { ValueLow piece }
    requires room { Room s }
    ensures { Weighed s piece result }
{
    match piece {
        Piece::Clean(value, n) => Survey {
            least: s.least.min(n),
            ones: s.ones + value,
            ..s
        },
        Piece::Dirty(x) => Survey {
            least: s.least.min(1),
            dirty: s.dirty + 1,
            planes: counters::add(s.planes, x),
            ..s
        },
    }
}

// A cursor put in place of another, part by part, as they were made: a whole one is copied by wider loads, which wait for the stores of its parts.
fn put(c: &mut Cursor, d: Cursor)
    ensures { c.new ≡ d }
{
    c.piece = d.piece;
    c.next = d.next;
    c.dirty = d.dirty;
}

// A cursor goes n segments on in the body of bitmap k, and its piece is counted in.
fn move_place(format: Format, index: &[u32], k: u32, c: &mut Cursor, n: u32, s: Survey) -> Survey
    requires head_facts { HeadFacts index.now }
    requires entry_facts { EntryFacts index.now }
    requires k_bound { (k < bitmap_count index.now) × (1 ≤ n) × (n ≤ left_of c.old.piece) }
    requires in_order { InOrder format (body_at index.now k) c.old }
    requires room { Room s }
    ensures { Moved format (body_at index.now k) c.old n c.new s result }
{
    // A run that goes on is met most often: of its cursor only the piece changes.
    if let Piece::Clean(value, left) = c.piece {
        if n < left {
            c.piece = Piece::Clean(value, left - n);
            return weigh(s, Piece::Clean(value, left - n));
        }
    }
    let d = cursor::advance(format, contents::body(index, k), *c, n);
    let piece = d.piece;
    put(c, d);
    weigh(s, piece)
}

// Every cursor goes n segments on in its body, which has the index's format.
pub fn advance(
    format: Format,
    index: &[u32],
    list: &[u32],
    cursors: &mut [Cursor],
    n: u32,
) -> Survey
    requires format_value { format ≡ format_of index.now }
    requires head_facts { HeadFacts index.now }
    requires entry_facts { EntryFacts index.now }
    requires listed { Listed index.now list.now }
    requires cursors_len { (length list.now ≤ length cursors.old) × (1 ≤ n) × ((i : ℕ) → i < length list.now
        → (n ≤ left_of (cursor_of cursors.old i).piece)
        × InOrder (format_of index.now) (body_at index.now (get_or list.now i 0)) (cursor_of cursors.old i)) }
    ensures { MovedAll (format_of index.now) index.now list.now
        cursors.old n cursors.new result }
{
    let mut s = nothing();
    for i in 0..list.len() {
        s = move_place(format, index, list[i], &mut cursors[i], n, s);
    }
    s
}

// A cursor for each place of the list, on the first piece of its body.
pub fn open(format: Format, index: &[u32], list: &[u32], cursors: &mut [Cursor])
    requires format_value { format ≡ format_of index.now }
    requires index_facts { IndexFacts index.now }
    requires listed { Listed index.now list.now }
    requires cursors_len { length list.now ≤ length cursors.old }
    ensures { (length cursors.new ≡ length cursors.old)
        × Standing (format_of index.now) index.now list.now cursors.new
        (length list.now) 0 }
{
    for i in 0..list.len() {
        cursors[i] = cursor::open(format, contents::body(index, list[i]));
    }
}

// The survey of all places.
pub fn all(cursors: &[Cursor]) -> Survey
    requires { (length cursors.now ≤ most_named)
        × ((i : ℕ) → i < length cursors.now → ValueLow (cursor_of cursors.now i).piece) }
    ensures { Surveyed cursors.now (length cursors.now) result }
{
    let mut s = nothing();
    for c in cursors {
        s = weigh(s, c.piece);
    }
    s
}
