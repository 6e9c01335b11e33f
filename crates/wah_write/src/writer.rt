// The writer of canonical WAH form. Its state is EWAH's, so that one engine keeps either: the words in use, and in
// place of the last marker's clean run the one that they end with, of no segments where they end with a mixed one.
// Growing needs no buffer: what a body will take is measured so. Pushing grows it too, and stores the one word that
// is new or has changed.
ghost use Rattle.std.specs.Prelude.{◌≡◌, [], ◌∷◌, ℕ, ◌+◌, ◌-◌, ◌<◌, ◌≤◌, ◌^◌, length, replicate};
ghost use Rattle.meaning.specs.Limits.{most_fill};
ghost use Rattle.meaning.specs.Segment.{clean, mixed, kind};
ghost use Rattle.meaning.specs.Wah.{wah_draft, run_words};
ghost use Rattle.wah_write.specs.WahDrafts.{WahTracks, Grown, RoomFor, Pushed, ending};

use ewah::marker::Marker;
use ewah_write::writer::Writer;
use wah::word;
use words::rows;

// So many words in use, which end with a clean run of n segments.
fn ending(used: usize, value: u32, n: u32) -> Writer
    ensures { result ≡ ending used value n }
{
    Writer {
        used,
        at: 0,
        last: Marker {
            value,
            clean: n,
            dirty: 0,
        },
    }
}

// No word yet.
pub fn start() -> Writer
    ensures { WahTracks result (wah_draft [] 0 0) }
{
    ending(0, 0, 0)
}

// A clean run goes on in the last one where that has its value, and else is a new word.
pub fn grow_run(w: Writer, value: u32, n: u32) -> Writer
    requires { (w.used < 2 ^ 62) × (value < 2) × (1 ≤ n) × (w.last.clean + n ≤ most_fill) }
    ensures { Grown w (replicate n (clean value)) result }
{
    let last = w.last;
    if last.clean == 0 {
        return ending(w.used + 1, value, n);
    }
    if last.value != value {
        return ending(w.used + 1, value, n);
    }
    ending(w.used, value, last.clean + n)
}

// A mixed segment is a literal.
pub fn grow_mixed(w: Writer) -> Writer
    requires { w.used < 2 ^ 62 }
    ensures { (x : ℕ) → Grown w (mixed x ∷ []) result }
{
    ending(w.used + 1, 0, 0)
}

// One segment, of the kind that its word has: 31 ones stand for a clean one, however many rows it has.
pub fn grow_segment(w: Writer, x: u32) -> Writer
    requires { (w.used < 2 ^ 62) × (w.last.clean < most_fill) }
    ensures { Grown w (kind 31 x ∷ []) result }
{
    if rows::is_clean(x, 0x7FFF_FFFF) {
        return grow_run(w, x & 1, 1);
    }
    grow_mixed(w)
}

// The word of a run of n clean segments, of whose last one the mask has the rows: a lone segment is a literal.
fn run_word(value: u32, n: u32, mask: u32) -> u32
    requires { (value < 2) × (1 ≤ n) × (n ≤ most_fill) }
    ensures { (real : ℕ) → mask ≡ 2 ^ real - 1 → run_words real value n ≡ result ∷ [] }
{
    if n == 1 {
        return value * mask;
    }
    word::fill_word(value, n)
}

// `grow_run`, with the run's word, which is the last in use; the mask has the rows of its last segment.
pub fn push_run(out: &mut [u32], w: Writer, value: u32, n: u32, mask: u32) -> Writer
    requires room_for { RoomFor (replicate n (clean value)) w (length out.old) }
    requires value_bound { (value < 2) × (1 ≤ n) × (w.last.clean + n ≤ most_fill) }
    ensures { (real : ℕ) → mask ≡ 2 ^ real - 1
        → Pushed real out.old out.new w (replicate n (clean value)) result }
{
    let r = grow_run(w, value, n);
    let last = r.last;
    let end = r.used - 1;
    out[end] = run_word(value, last.clean, mask);
    r
}

// `grow_mixed`, with the segment's word.
pub fn push_mixed(out: &mut [u32], w: Writer, x: u32) -> Writer
    requires { RoomFor (mixed x ∷ []) w (length out.old) }
    ensures { (real : ℕ) → Pushed real out.old out.new w (mixed x ∷ []) result }
{
    let end = w.used;
    let r = grow_mixed(w);
    out[end] = x;
    r
}

// `grow_segment`, with its word; the mask has its rows.
pub fn push_segment(out: &mut [u32], w: Writer, x: u32, mask: u32) -> Writer
    requires room_for { RoomFor (kind 31 x ∷ []) w (length out.old) }
    requires clean_lt_most_fill { w.last.clean < most_fill }
    ensures { (real : ℕ) → mask ≡ 2 ^ real - 1
        → Pushed real out.old out.new w (kind 31 x ∷ []) result }
{
    if rows::is_clean(x, 0x7FFF_FFFF) {
        return push_run(out, w, x & 1, 1, mask);
    }
    push_mixed(out, w, x)
}
