// A row of words, or a run of alike segments, goes to the writer of one body. Mixed segments that the last EWAH
// marker has room for go there all at once.
// Calls here have a `requires`; the public ones of `zvonurel` test their input first.
#![tactic(auto)]

ghost use Rattle.std.specs.Prelude.{◌≡◌, true, false, map, ℕ, ◌+◌, ◌-◌, ◌<◌, ◌≤◌, ◌^◌, length, get_or, replicate};
ghost use Rattle.std.proofs.Math.Seq.{paste};
ghost use Rattle.meaning.specs.Limits.{most_dirty};
ghost use Rattle.meaning.specs.Segment.{clean, mixed, kind, all_set};
ghost use Rattle.meaning.specs.Format.{width, most_run};
ghost use Rattle.meaning.specs.declared.Format.{Format};
ghost use Rattle.meaning.specs.declared.Format.TheVariants.{Ewah};
ghost use Rattle.ewah_write.specs.Drafts as ewah;
ghost use Rattle.body_write.specs.Bodies.{Growing, RoomFor, Emitted};
ghost use Rattle.block_write.specs.Rowed.{row_length, row_segments, CleanWord, Joined};

use body_write::writer;
use ewah::marker;
use ewah::marker::Marker;
use ewah_write::writer::Writer;
use meaning::{Format, MOST_DIRTY};
use words::{copies, rows};

// The words that a row of n segments has: one where all are alike.
pub fn row_length(n: u32, even: bool) -> usize
    ensures { result ≡ row_length n even }
{
    if even { 1 } else { n as usize }
}

// The value of the clean segments whose word is x.
fn clean_value(x: u32) -> u32
    ensures { (result < 2) × ((F : Format) → CleanWord F x → kind (width F) x ≡ clean result) }
{
    u32::from(x != 0)
}

// n clean segments, all of the word x; the mask has the rows of the last.
fn emit_even(
    format: Format,
    out: &mut [u32],
    w: Writer,
    x: u32,
    n: u32,
    mask: u32,
    store: bool,
) -> Writer
    requires growing { Growing format w n }
    requires le_n { (1 ≤ n) × (n ≤ most_run format) × CleanWord format x }
    requires room_for { store ≡ true → RoomFor format (replicate n (kind (width format) x)) w (length out.old) }
    ensures { (real : ℕ) → mask ≡ 2 ^ real - 1 → Emitted format real out.old out.new w
        (replicate n (kind (width format) x)) store result }
{
    let value = clean_value(x);
    writer::emit_run(format, out, w, value, n, mask, store)
}

// No word is all zeros or all ones.
fn all_mixed(words: &[u32]) -> bool
    ensures { result ≡ true → map (kind 32) words.now ≡ map mixed words.now }
{
    words.iter().all(|x| *x != 0 && *x != 0xFFFF_FFFF)
}

// Whether the last EWAH marker has room for the words. A body with no word yet counts as having a full one.
fn marker_has_room(w: Writer, count: usize) -> bool
    requires { ewah.Writing w }
    ensures { result ≡ true → w.last.dirty + count ≤ most_dirty }
{
    let last = w.last;
    let room = (MOST_DIRTY - last.dirty) as usize;
    count <= room
}

// Whether all words are of mixed segments and the last marker has room for them. WAH has no markers: there each
// literal goes by itself.
fn joins(format: Format, w: Writer, words: &[u32]) -> bool
    requires { Growing format w (length words.now) }
    ensures { result ≡ true → (format ≡ Ewah) × (w.last.dirty + length words.now ≤ most_dirty)
        × (map (kind 32) words.now ≡ map mixed words.now) }
{
    match format {
        Format::Ewah => {
            if marker_has_room(w, words.len()) {
                return all_mixed(words);
            }
            false
        }
        Format::Wah => false,
    }
}

// m mixed segments more under the last marker, which has room for them.
fn grow_words(w: Writer, m: u32) -> Writer
    requires { (1 ≤ m) × (w.last.dirty + m ≤ most_dirty) × (w.used < 2 ^ 62) }
    ensures { Joined w m result }
{
    let last = w.last;
    Writer {
        used: w.used + m as usize,
        last: Marker {
            dirty: last.dirty + m,
            ..last
        },
        ..w
    }
}

// `grow_words`, with the words: those of the segments behind the last, and then the marker that counts them.
fn push_words(out: &mut [u32], w: Writer, words: &[u32]) -> Writer
    requires in_bounds { (1 ≤ length words.now) × (w.last.dirty + length words.now ≤ most_dirty) × (w.used < 2 ^ 62) }
    requires room_for { ewah.RoomFor (map mixed words.now) w (length out.old) }
    ensures { ewah.Pushed out.old out.new w (map mixed words.now) result }
{
    let at = w.at;
    let used = w.used;
    let r = grow_words(w, words.len() as u32);
    copies::copy(&mut out[used..used + words.len()], words);
    out[at] = marker::word(r.last);
    r
}

// Mixed segments, all under the last EWAH marker.
fn emit_mixed(out: &mut [u32], w: Writer, words: &[u32], store: bool) -> Writer
    requires growing { Growing Ewah w (length words.now) }
    requires in_bounds { (1 ≤ length words.now) × (w.last.dirty + length words.now ≤ most_dirty) }
    requires room_for { store ≡ true → RoomFor Ewah (map mixed words.now) w (length out.old) }
    ensures { (real : ℕ) → Emitted Ewah real out.old out.new w
        (map mixed words.now) store result }
{
    if store {
        return push_words(out, w, words);
    }
    grow_words(w, words.len() as u32)
}

// Words of any segments, one by one; the mask has the rows of the last.
fn emit_each(
    format: Format,
    out: &mut [u32],
    w: Writer,
    words: &[u32],
    mask: u32,
    store: bool,
) -> Writer
    requires growing { Growing format w (length words.now) }
    requires in_bounds { 1 ≤ length words.now }
    requires room_for { store ≡ true → RoomFor format (map (kind (width format)) words.now) w (length out.old) }
    ensures { (real : ℕ) → mask ≡ 2 ^ real - 1 → Emitted format real out.old out.new w
        (map (kind (width format)) words.now) store result }
{
    let full = rows::full(format);
    let last = words.len() - 1;
    let others = &words[..last];
    let mut v = w;
    for x in others {
        let r = writer::emit_segment(format, out, v, *x, full, store);
        v = r;
    }
    writer::emit_segment(format, out, v, words[last], mask, store)
}

// A row of n segments, one by one or as a run, is written where `store` says so, and else only measured; the mask has the
// rows of the last. For a body by itself: `emit_row` is quicker for those who write many.
pub fn emit_apart(
    format: Format,
    out: &mut [u32],
    w: Writer,
    words: &[u32],
    n: u32,
    even: bool,
    mask: u32,
    store: bool,
) -> Writer
    requires growing { Growing format w n }
    requires le_n { (1 ≤ n) × (n ≤ most_run format)
        × (even ≡ true → (1 ≤ length words.now) × CleanWord format (get_or words.now 0 0))
        × (even ≡ false → length words.now ≡ n) }
    requires room_for { store ≡ true → RoomFor format (row_segments format words.now n even) w (length out.old) }
    ensures { (real : ℕ) → mask ≡ 2 ^ real - 1 → Emitted format real out.old out.new w
        (row_segments format words.now n even) store result }
{
    if even {
        return emit_even(format, out, w, words[0], n, mask, store);
    }
    emit_each(format, out, w, words, mask, store)
}

// `emit_apart`, but for mixed segments that the last marker has room for: these go to it all at once.
pub fn emit_row(
    format: Format,
    out: &mut [u32],
    w: Writer,
    words: &[u32],
    n: u32,
    even: bool,
    mask: u32,
    store: bool,
) -> Writer
    requires growing { Growing format w n }
    requires le_n { (1 ≤ n) × (n ≤ most_run format)
        × (even ≡ true → (1 ≤ length words.now) × CleanWord format (get_or words.now 0 0))
        × (even ≡ false → length words.now ≡ n) }
    requires room_for { store ≡ true → RoomFor format (row_segments format words.now n even) w (length out.old) }
    ensures { (real : ℕ) → mask ≡ 2 ^ real - 1 → Emitted format real out.old out.new w
        (row_segments format words.now n even) store result }
{
    if !even && joins(format, w, words) {
        return emit_mixed(out, w, words, store);
    }
    emit_apart(format, out, w, words, n, even, mask, store)
}
