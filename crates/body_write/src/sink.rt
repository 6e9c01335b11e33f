// Where the words of a body go: to the front of a buffer, or nowhere, where the body is only measured.
ghost use Rattle.std.specs.Prelude.{◌≡◌, Bool, true, false, List, ℕ, [], ◌∷◌, ◌-◌, ◌^◌, ◌<◌, ◌≤◌, length, replicate};
ghost use Rattle.meaning.specs.Segment.{clean, kind};
ghost use Rattle.meaning.specs.Format.{width, most_run};
ghost use Rattle.body_write.specs.Bodies.{Growing, RoomFor, Emitted};

use crate::writer;
use ewah_write::writer::Writer;
use meaning::Format;

pub trait Sink {
    // Whether the words are stored.
    ghost stores: { Bool };

    // The buffer's words.
    ghost words: { Self → List ℕ };

    // The buffer itself stays the same.
    ghost name: { Self → ℕ };

    // A clean run. The mask has the rows of its last segment; EWAH has no use for it.
    fn run(&mut self, format: Format, w: Writer, value: u32, n: u32, mask: u32) -> Writer
        requires growing { Growing format w n }
        requires value_bound { (value < 2) × (1 ≤ n) × (n ≤ most_run format) }
        requires room_for { stores ≡ true → RoomFor format (replicate n (clean value)) w (length (words self.old)) }
        ensures emitted { (real : ℕ) → mask ≡ 2 ^ real - 1
            → Emitted format real (words self.old) (words self.new) w (replicate n (clean value)) stores result }
        ensures same { (name self.new ≡ name self.old) × (length (words self.new) ≡ length (words self.old)) };

    // One segment, of the kind that its word has; the mask has its rows.
    fn segment(&mut self, format: Format, w: Writer, x: u32, mask: u32) -> Writer
        requires growing { Growing format w 1 }
        requires room_for { stores ≡ true → RoomFor format (kind (width format) x ∷ []) w (length (words self.old)) }
        ensures emitted { (real : ℕ) → mask ≡ 2 ^ real - 1
            → Emitted format real (words self.old) (words self.new) w (kind (width format) x ∷ []) stores result }
        ensures same { (name self.new ≡ name self.old) × (length (words self.new) ≡ length (words self.old)) };
}

#[derive(Clone, Copy)]
pub struct Measured {}

impl Sink for Measured {
    ghost stores = { false };

    ghost words = { λ s. [] };

    ghost name = { λ s. 0 };

    fn run(&mut self, format: Format, w: Writer, value: u32, n: u32, _mask: u32) -> Writer {
        writer::grow_run(format, w, value, n)
    }

    fn segment(&mut self, format: Format, w: Writer, x: u32, _mask: u32) -> Writer {
        writer::grow_segment(format, w, x)
    }
}

#[derive(Drop)]
pub struct Stored<'a> {
    pub out: &'a mut [u32],
}

impl<'a> Sink for Stored<'a> {
    ghost stores = { true };

    ghost words = { λ s. s.out.now };

    ghost name = { λ s. s.out.ghost_name };

    fn run(&mut self, format: Format, w: Writer, value: u32, n: u32, mask: u32) -> Writer {
        writer::push_run(format, self.out, w, value, n, mask)
    }

    fn segment(&mut self, format: Format, w: Writer, x: u32, mask: u32) -> Writer {
        writer::push_segment(format, self.out, w, x, mask)
    }
}
