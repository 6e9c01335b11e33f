// What every pass over the rows of one format goes by.
ghost use Rattle.std.specs.Prelude.{◌≡◌, ◌-◌, ◌≤◌};
ghost use Rattle.meaning.specs.Segment.{segment_count, last_rows, rows_in, all_set};
ghost use Rattle.meaning.specs.Format as formats;

use crate::rows;
use meaning::Format;

// How many rows a segment has that is not the last, how many segments there are, the word of a whole segment of ones, and the
// bits of the last segment that are rows.
#[derive(Clone, Copy)]
pub struct Frame {
    pub format: Format,
    pub rows: u32,
    pub width: u32,
    pub segments: u32,
    pub full: u32,
    pub last: u32,
    pub ghost width_is: { width ≡ formats.width format },
    pub ghost total: { segments ≡ segment_count (formats.width format) rows },
    pub ghost full_is: { full ≡ all_set (formats.width format) },
    pub ghost last_is: { 1 ≤ rows → last ≡ all_set (last_rows (formats.width format) rows) },
}

impl Frame {
    // Of that many rows.
    pub fn of(format: Format, rows: u32) -> Frame
        requires { rows ≤ 4294967264 }
        ensures { (result.format ≡ format) × (result.rows ≡ rows) }
    {
        Frame {
            format,
            rows,
            width: rows::width(format),
            segments: rows::segments(format, rows),
            full: rows::full(format),
            last: rows::last_mask(format, rows),
        }
    }

    // The bits of the segment before `end` that are rows: all of them, or those of the last segment.
    pub fn mask(self, end: u32) -> u32
        ensures { 1 ≤ end → end ≤ self.segments
            → result ≡ all_set (rows_in (formats.width self.format) self.rows (end - 1)) }
    {
        if end < self.segments {
            return self.full;
        }
        self.last
    }
}
