// A part of the answer goes to the writer.
ghost use Rattle.std.specs.Prelude.{◌≡◌, true, ℕ, ◌-◌, ◌^◌, length};
ghost use Rattle.body_write.specs.Bodies.{Growing, RoomFor, Emitted};
ghost use Rattle.merge.specs.Parts.{part_segments, PartLow};

use crate::evaluate::Part;
use body_write::writer;
use ewah_write::writer::Writer;
use meaning::Format;

// A part is written where `store` says so, and else only measured; the mask has the rows of its last segment.
pub fn emit(
    format: Format,
    out: &mut [u32],
    w: Writer,
    part: Part,
    mask: u32,
    store: bool,
) -> Writer
    requires growing { Growing format w (length (part_segments format part)) }
    requires part_low { PartLow format part }
    requires room_for { store ≡ true → RoomFor format (part_segments format part) w (length out.old) }
    ensures { (real : ℕ) → mask ≡ 2 ^ real - 1
        → Emitted format real out.old out.new w (part_segments format part) store result }
{
    if store {
        return match part {
            Part::Run(value, n) => writer::push_run(format, out, w, value, n, mask),
            Part::Word(x) => writer::push_segment(format, out, w, x, mask),
        };
    }
    match part {
        Part::Run(value, n) => writer::grow_run(format, w, value, n),
        Part::Word(x) => writer::grow_segment(format, w, x),
    }
}
