// The writer of canonical form for either format, as a state by value. Growing it needs no buffer; pushing grows it
// too, and stores the words; emitting does the one or the other, as it is told.
ghost use Rattle.std.specs.Prelude.{◌≡◌, true, [], ◌∷◌, ℕ, ◌-◌, ◌<◌, ◌≤◌, ◌^◌, length, replicate};
ghost use Rattle.meaning.specs.Segment.{clean, kind};
ghost use Rattle.meaning.specs.Format.{width, most_run};
ghost use Rattle.body_write.specs.Bodies.{Stands, Growing, Grown, RoomFor, Pushed, Emitted};

use ewah_write::writer::Writer;
use meaning::Format;

// No segment yet.
pub fn start(format: Format) -> Writer
    ensures { Stands format result [] }
{
    match format {
        Format::Ewah => ewah_write::writer::start(),
        Format::Wah => wah_write::writer::start(),
    }
}

// A clean run.
pub fn grow_run(format: Format, w: Writer, value: u32, n: u32) -> Writer
    requires growing { Growing format w n }
    requires value_bound { (value < 2) × (1 ≤ n) × (n ≤ most_run format) }
    ensures { Grown format w (replicate n (clean value)) result }
{
    match format {
        Format::Ewah => ewah_write::writer::grow_run(w, value, n),
        Format::Wah => wah_write::writer::grow_run(w, value, n),
    }
}

// One segment, of the kind that its word has: the word of a whole segment of ones stands for a clean one, however
// many rows it has.
pub fn grow_segment(format: Format, w: Writer, x: u32) -> Writer
    requires { Growing format w 1 }
    ensures { Grown format w (kind (width format) x ∷ []) result }
{
    match format {
        Format::Ewah => ewah_write::writer::grow_segment(w, x),
        Format::Wah => wah_write::writer::grow_segment(w, x),
    }
}

// `grow_run`, with its words. The mask has the rows of its last segment; EWAH has no use for it.
pub fn push_run(format: Format, out: &mut [u32], w: Writer, value: u32, n: u32, mask: u32) -> Writer
    requires room_for { RoomFor format (replicate n (clean value)) w (length out.old) }
    requires value_bound { (value < 2) × (1 ≤ n) × (n ≤ most_run format) }
    ensures { (real : ℕ) → mask ≡ 2 ^ real - 1
        → Pushed format real out.old out.new w (replicate n (clean value)) result }
{
    match format {
        Format::Ewah => ewah_write::writer::push_run(out, w, value, n),
        Format::Wah => wah_write::writer::push_run(out, w, value, n, mask),
    }
}

// `grow_segment`, with its words; the mask has its rows.
pub fn push_segment(format: Format, out: &mut [u32], w: Writer, x: u32, mask: u32) -> Writer
    requires { RoomFor format (kind (width format) x ∷ []) w (length out.old) }
    ensures { (real : ℕ) → mask ≡ 2 ^ real - 1
        → Pushed format real out.old out.new w (kind (width format) x ∷ []) result }
{
    match format {
        Format::Ewah => ewah_write::writer::push_segment(out, w, x),
        Format::Wah => wah_write::writer::push_segment(out, w, x, mask),
    }
}

// `push_run` where `store` says so, and else `grow_run`.
pub fn emit_run(
    format: Format,
    out: &mut [u32],
    w: Writer,
    value: u32,
    n: u32,
    mask: u32,
    store: bool,
) -> Writer
    requires growing { Growing format w n }
    requires value_bound { (value < 2) × (1 ≤ n) × (n ≤ most_run format) }
    requires room_for { store ≡ true → RoomFor format (replicate n (clean value)) w (length out.old) }
    ensures { (real : ℕ) → mask ≡ 2 ^ real - 1
        → Emitted format real out.old out.new w (replicate n (clean value)) store result }
{
    if store {
        return push_run(format, out, w, value, n, mask);
    }
    grow_run(format, w, value, n)
}

// `push_segment` where `store` says so, and else `grow_segment`.
pub fn emit_segment(
    format: Format,
    out: &mut [u32],
    w: Writer,
    x: u32,
    mask: u32,
    store: bool,
) -> Writer
    requires growing { Growing format w 1 }
    requires room_for { store ≡ true → RoomFor format (kind (width format) x ∷ []) w (length out.old) }
    ensures { (real : ℕ) → mask ≡ 2 ^ real - 1
        → Emitted format real out.old out.new w (kind (width format) x ∷ []) store result }
{
    if store {
        return push_segment(format, out, w, x, mask);
    }
    grow_segment(format, w, x)
}
