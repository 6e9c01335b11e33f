// The writer of canonical form, as a state by value. Growing it needs no buffer: what a body will take is measured so. Pushing grows it too, and stores the words.
ghost use Rattle.std.specs.Prelude.{◌≡◌, [], ◌∷◌, ℕ, ◌<◌, ◌≤◌, ◌^◌, length, replicate};
ghost use Rattle.meaning.specs.Limits.{most_clean};
ghost use Rattle.meaning.specs.Segment.{clean, mixed, kind};
ghost use Rattle.meaning.specs.Canonical.{blank};
ghost use Rattle.ewah_write.specs.Drafts.{Tracks, Writing, RoomFor, Grown, Pushed, free_of};

use ewah::marker;
use ewah::marker::Marker;
use meaning::{MOST_CLEAN, MOST_DIRTY};
use words::rows;

// The marker being filled, at word `at`, and how many words are in use.
#[derive(Clone, Copy)]
pub struct Writer {
    pub used: usize,
    pub at: usize,
    pub last: Marker,
}

// No word yet: the marker counts as full, so that nothing joins it.
pub fn start() -> Writer
    ensures { Tracks result blank }
{
    Writer {
        used: 0,
        at: 0,
        last: Marker {
            value: 0,
            clean: MOST_CLEAN,
            dirty: MOST_DIRTY,
        },
    }
}

// How many clean segments of that value the last marker can still take.
fn free(w: Writer, value: u32) -> u32
    requires { Writing w }
    ensures { result ≡ free_of w value }
{
    let last = w.last;
    if last.dirty != 0 {
        return 0;
    }
    if last.value != value {
        return 0;
    }
    MOST_CLEAN - last.clean
}

// A clean run joins the last marker as far as that has room; the rest goes under a new marker.
pub fn grow_run(w: Writer, value: u32, n: u32) -> Writer
    requires writing { Writing w }
    requires used_bound { (w.used < 2 ^ 62) × (value < 2) × (n ≤ most_clean) }
    ensures { Grown w (replicate n (clean value)) result }
{
    let last = w.last;
    let room = free(w, value);
    if n <= room {
        return Writer {
            used: w.used,
            at: w.at,
            last: Marker {
                value: last.value,
                clean: last.clean + n,
                dirty: last.dirty,
            },
        };
    }
    Writer {
        used: w.used + 1,
        at: w.used,
        last: Marker {
            value,
            clean: n - room,
            dirty: 0,
        },
    }
}

// A mixed segment is a dirty word of the last marker if that has room, else of a new one with no clean run.
pub fn grow_mixed(w: Writer) -> Writer
    requires writing { Writing w }
    requires used_bound { w.used < 2 ^ 62 }
    ensures { (x : ℕ) → Grown w (mixed x ∷ []) result }
{
    let last = w.last;
    if last.dirty < MOST_DIRTY {
        return Writer {
            used: w.used + 1,
            at: w.at,
            last: Marker {
                value: last.value,
                clean: last.clean,
                dirty: last.dirty + 1,
            },
        };
    }
    Writer {
        used: w.used + 2,
        at: w.used,
        last: Marker {
            value: 0,
            clean: 0,
            dirty: 1,
        },
    }
}

// One segment, of the kind that its word has.
pub fn grow_segment(w: Writer, x: u32) -> Writer
    requires writing { Writing w }
    requires used_bound { w.used < 2 ^ 62 }
    ensures { Grown w (kind 32 x ∷ []) result }
{
    if rows::is_clean(x, 0xFFFF_FFFF) {
        return grow_run(w, x & 1, 1);
    }
    grow_mixed(w)
}

// `grow_run`, with the words: the last marker if it took part of the run, and the new one if there is one.
pub fn push_run(out: &mut [u32], w: Writer, value: u32, n: u32) -> Writer
    requires room_for { RoomFor (replicate n (clean value)) w (length out.old) }
    requires value_bound { (value < 2) × (n ≤ most_clean) }
    ensures { Pushed out.old out.new w (replicate n (clean value)) result }
{
    let at = w.at;
    let used = w.used;
    let room = free(w, value);
    let r = grow_run(w, value, n);
    let m = marker::word(r.last);
    if n == 0 {
        return r;
    }
    if n <= room {
        out[at] = m;
        return r;
    }
    if room == 0 {
        out[used] = m;
        return r;
    }
    out[at] = marker::word(Marker {
        value,
        clean: MOST_CLEAN,
        dirty: 0,
    });
    out[used] = m;
    r
}

// `grow_mixed`, with the words: the marker that counts the segment, and the segment's own word, the last.
pub fn push_mixed(out: &mut [u32], w: Writer, x: u32) -> Writer
    requires { RoomFor (mixed x ∷ []) w (length out.old) }
    ensures { Pushed out.old out.new w (mixed x ∷ []) result }
{
    let r = grow_mixed(w);
    let at = r.at;
    let end = r.used - 1;
    out[at] = marker::word(r.last);
    out[end] = x;
    r
}

// `grow_segment`, with the words.
pub fn push_segment(out: &mut [u32], w: Writer, x: u32) -> Writer
    requires { RoomFor (kind 32 x ∷ []) w (length out.old) }
    ensures { Pushed out.old out.new w (kind 32 x ∷ []) result }
{
    if rows::is_clean(x, 0xFFFF_FFFF) {
        return push_run(out, w, x & 1, 1);
    }
    push_mixed(out, w, x)
}
