// Rows laid out in segments: how many segments, and which bits of one are rows. A segment has 32 rows in plain words and in EWAH
// bodies, and 31 in WAH bodies.
ghost use Rattle.std.specs.Prelude.{◌≡◌, cond, ℕ, ◌%◌, ◌-◌, ◌^◌, ◌≤◌, ◌<◌, leb};
ghost use Rattle.meaning.specs.Segment.{segment_count, last_rows, last_limit, all_set, clean, mixed, kind};
ghost use Rattle.meaning.specs.Format.{width};
ghost use Rattle.meaning.specs.declared.Format.{Format};

use crate::bits;
use meaning::Format;

// ---- segments of W rows

// How many segments that many rows have.
pub fn segment_count<const W: u32>(rows: u32) -> u32
    requires { (2 ≤ W) × (W ≤ 32) × (rows ≤ 4294967264) }
    ensures { result ≡ segment_count W rows }
{
    (rows + (W - 1)) / W
}

// How many rows the last segment has.
pub fn last_rows<const W: u32>(rows: u32) -> u32
    requires { (2 ≤ W) × (W ≤ 32) × (1 ≤ rows) }
    ensures { (result ≡ last_rows W rows) × (1 ≤ result) × (result ≤ W) }
{
    (rows - 1) % W + 1
}

// Whether a word sets a pad bit as the last segment of that many rows. A shift tells it, with no mask to work out; a last segment of
// 32 rows has no pad bit, and that is tested first, so that a loop over words is compiled once more for it, with no shift.
pub fn sets_pad<const W: u32>(rows: u32, x: u32) -> bool
    requires { (2 ≤ W) × (W ≤ 32) × (1 ≤ rows) }
    ensures { result ≡ leb (last_limit W rows) x }
{
    let real = last_rows::<W>(rows);
    real < 32 && (x as u64) >> real != 0
}

// ---- either format

// How many rows a segment has that is not the last.
pub fn width(format: Format) -> u32
    ensures { result ≡ width format }
{
    match format {
        Format::Ewah => 32,
        Format::Wah => 31,
    }
}

// The word of such a segment that has all its rows set.
pub fn full(format: Format) -> u32
    ensures { result ≡ all_set (width format) }
{
    match format {
        Format::Ewah => 0xFFFF_FFFF,
        Format::Wah => 0x7FFF_FFFF,
    }
}

// How many segments that many rows have.
pub fn segments(format: Format, rows: u32) -> u32
    requires { rows ≤ 4294967264 }
    ensures { result ≡ segment_count (width format) rows }
{
    match format {
        Format::Ewah => segment_count::<32>(rows),
        Format::Wah => segment_count::<31>(rows),
    }
}

// How many rows the last segment has.
fn last_rows_of(format: Format, rows: u32) -> u32
    requires { 1 ≤ rows }
    ensures { (result ≡ last_rows (width format) rows) × (1 ≤ result) × (result ≤ width format) }
{
    match format {
        Format::Ewah => last_rows::<32>(rows),
        Format::Wah => last_rows::<31>(rows),
    }
}

// The bits of the last segment that are rows.
pub fn last_mask(format: Format, rows: u32) -> u32
    ensures { 1 ≤ rows → result ≡ all_set (last_rows (width format) rows) }
{
    if rows == 0 {
        return 0;
    }
    bits::low_ones(last_rows_of(format, rows))
}

// The word that a segment is written as, of whose bits the mask has the rows: `full`, the word of a whole segment of
// ones, where all its rows are set, so that it is a clean segment like any other; else its rows, with no pad bit.
pub fn spelled(x: u32, mask: u32, full: u32) -> u32
    ensures { (w real : ℕ) → 1 ≤ real → real ≤ w → full ≡ all_set w → mask ≡ all_set real
        → (kind w result ≡ kind real (x % 2 ^ real)) × (result < 2 ^ w) }
{
    let seen = x & mask;
    if seen == mask {
        return full;
    }
    seen
}

// Whether a segment's word is that of a clean one, where `full` has all its rows set.
// Its lowest bit is then their value.
pub fn is_clean(x: u32, full: u32) -> bool
    ensures { (w : ℕ) → 1 ≤ w → full ≡ all_set w → kind w x ≡ cond result (clean (x % 2)) (mixed x) }
{
    if x == 0 {
        return true;
    }
    x == full
}
