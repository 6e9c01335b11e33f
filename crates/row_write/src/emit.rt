// A run goes to the writer: stored where `store` says so, and else only measured.
ghost use Rattle.std.specs.Prelude.{◌≡◌, true, ◌≤◌, ◌<◌, length, replicate};
ghost use Rattle.meaning.specs.Limits.{most_segments};
ghost use Rattle.meaning.specs.Segment.{clean};
ghost use Rattle.meaning.specs.Format.{width, most_run};
ghost use Rattle.body_write.specs.Bodies.{Growing, RoomFor, Emitted};

use body_write::sink::Sink;
use ewah_write::writer::Writer;
use meaning::{Format, MOST_CLEAN};
use words::rows;

// How many of n clean segments go in one step: a marker takes so many, and a fill any number that a body has.
fn at_once(format: Format, n: u32) -> u32
    requires { n ≤ most_segments }
    ensures { (result ≤ n) × (result ≤ most_run format) × (1 ≤ n → 1 ≤ result) }
{
    match format {
        Format::Ewah => n.min(MOST_CLEAN),
        Format::Wah => n,
    }
}

// n whole clean segments: in one step, but for a run to EWAH that no marker can take.
pub fn run<S: Sink>(format: Format, out: &mut S, w: Writer, value: u32, n: u32) -> Writer
    requires growing { Growing format w n }
    requires value_bound { value < 2 }
    requires room_for { S.stores ≡ true → RoomFor format (replicate n (clean value)) w (length (S.words out.old)) }
    ensures emitted { Emitted format (width format) (S.words out.old) (S.words out.new) w (replicate n (clean value))
        S.stores result }
    ensures same { (S.name out.new ≡ S.name out.old) × (length (S.words out.new) ≡ length (S.words out.old)) }
{
    let full = rows::full(format);
    let mut v = w;
    let mut left = n;
    // Kept: a loop by hand, (d): a step takes as many segments as a marker can, so no range has its turns.
    while left != 0 {
        let k = at_once(format, left);
        v = out.run(format, v, value, k, full);
        left -= k;
    }
    v
}
