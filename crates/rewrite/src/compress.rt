// Plain words as a canonical body of either format. EWAH, whose segments are plain words, has a quicker way in
// `ewah_write`.
ghost use Rattle.std.specs.Prelude.{◌≡◌, ◌++◌, ℕ, ◌*◌, ◌≤◌, ◌<◌, length, drop, get_or};
ghost use Rattle.meaning.specs.Limits.{most_segments};
ghost use Rattle.meaning.specs.Segment.{has_row, kind, segment_count, rows_in, all_set, from_rows};
ghost use Rattle.meaning.specs.Format.{width, canonical};
ghost use Rattle.laws.specs.Demands.{PlainRows};

use body_write::writer;
use meaning::Format;
use repack::plain;
use words::frame::Frame;
use words::rows;

// Segment i as the writer takes it, of whose bits the mask has the rows.
fn word_at(frame: Frame, plain: &[u32], i: u32, mask: u32) -> u32
    requires plain_rows { PlainRows frame.rows plain.now }
    requires inside { i < frame.segments }
    requires rows_of_mask { mask ≡ all_set (rows_in (width frame.format) frame.rows i) }
    ensures { kind (width frame.format) result
        ≡ kind (rows_in (width frame.format) frame.rows i)
        (get_or (from_rows (width frame.format) frame.rows (has_row 32 plain.now)) i 0) }
{
    rows::spelled(plain::segment_at(plain, i, frame.format), mask, frame.full)
}

// How many words `write` takes: the same steps with no buffer.
pub fn measure(format: Format, plain: &[u32], rows: u32) -> usize
    requires { PlainRows rows plain.now }
    ensures { result ≡ length (canonical format rows (has_row 32 plain.now)) }
{
    let frame = Frame::of(format, rows);
    let mut w = writer::start(format);
    for i in 0..frame.segments {
        w = writer::grow_segment(format, w, word_at(frame, plain, i, frame.mask(i + 1)));
    }
    w.used
}

// The body from the front of `out`, in exactly the words that `measure` counts; words behind it keep their values.
pub fn write(format: Format, plain: &[u32], rows: u32, out: &mut [u32]) -> usize
    requires plain_rows { PlainRows rows plain.now }
    requires plain_in_bounds { length (canonical format rows (has_row 32 plain.now)) ≤ length out.old }
    ensures value { result ≡ length (canonical format rows (has_row 32 plain.now)) }
    ensures out_after { out.new
        ≡ canonical format rows (has_row 32 plain.now) ++ drop result out.old }
{
    let frame = Frame::of(format, rows);
    let mut w = writer::start(format);
    for i in 0..frame.segments {
        let mask = frame.mask(i + 1);
        w = writer::push_segment(format, out, w, word_at(frame, plain, i, mask), mask);
    }
    w.used
}
