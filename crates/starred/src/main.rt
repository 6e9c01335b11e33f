// Readings, asked of the public calls. What a reading expects is
// computed from the definitions; that the call gives it is proved of the call's contract alone; and the run tries it
// on the compiled code.
#![tactic(auto)]

use meaning::HISTOGRAM_COUNTS;
use zvonurel::{Fault, Format};

mod cases;

// Bodies of 0 and 64 rows.
fn short_bodies() {
    let none = [0];
    cases::compresses(Format::Ewah, 0, &none[0..0], 0, &[7, 7, 7, 7]);
    cases::compresses(Format::Ewah, 64, &[0, 0], 1, &[0x0000_0004, 7, 7, 7]);
    cases::compresses(
        Format::Ewah,
        64,
        &[0xFFFF_FFFF, 0xFFFF_FFFF],
        1,
        &[0x0000_0005, 7, 7, 7],
    );
}

// Bodies of 40 rows: all set, written and read as a run, and read with the last segment as a dirty word;
// rows 0 and 39; a pad bit.
fn forty_rows() {
    cases::compresses(
        Format::Ewah,
        40,
        &[0xFFFF_FFFF, 0xFF],
        1,
        &[0x0000_0005, 7, 7, 7],
    );
    cases::compresses(Format::Ewah, 40, &[1, 0x80], 3, &[0x0004_0000, 1, 0x80, 7]);
    cases::expands(
        Format::Ewah,
        40,
        &[0x0000_0005],
        2,
        &[0xFFFF_FFFF, 0xFF, 7, 7],
    );
    cases::expands(
        Format::Ewah,
        40,
        &[0x0002_0003, 0xFF],
        2,
        &[0xFFFF_FFFF, 0xFF, 7, 7],
    );
    cases::faulty(Format::Ewah, &[0x0002_0003, 0x1FF], 40, Fault::PadBit, 1);
}

// Rows 5 and 64 of 96, in canonical form and wastefully.
fn ninety_six_rows() {
    let plain = [0x20, 0, 1];
    let body = [0x0002_0000, 0x20, 0x0002_0002, 1];
    let wasteful = [0x0006_0000, 0x20, 0, 1];
    cases::compresses(Format::Ewah, 96, &plain, 4, &body);
    cases::expands(Format::Ewah, 96, &body, 3, &[0x20, 0, 1, 7]);
    cases::expands(Format::Ewah, 96, &wasteful, 3, &[0x20, 0, 1, 7]);
}

// The example LOOPED.
fn looped() {
    let index = [
        1,
        4,
        3,
        9,
        2,
        11,
        2,
        13,
        2,
        0x0002_0000,
        3,
        0x0002_0000,
        0xE,
        0x0002_0000,
        8,
    ];
    let list = [0, 1, 2];
    let mut counts: [u32; HISTOGRAM_COUNTS] = [0; HISTOGRAM_COUNTS];
    counts[1] = 2;
    counts[2] = 2;
    cases::sound(&index);
    cases::threshold(&index, &list, 2, 2, 1, &[0x0002_0000, 0xA, 7, 7]);
    cases::histogram(&index, &list, &counts);
    cases::refuses(
        &index,
        &list,
        4,
        &mut [7, 7],
        &[7, 7],
        Fault::BadArgument,
        0,
    );
    cases::refuses(&index, &list, 2, &mut [7], &[7], Fault::NoRoom, 2);
}

// Two bitmaps of 8 rows.
fn eight_rows() {
    let index = [1, 8, 2, 7, 2, 9, 2, 0x0002_0000, 0x32, 0x0002_0000, 0xB0];
    cases::and(&index, 0, 1, 2, &[0x0002_0000, 0x30, 7, 7]);
    cases::or(&index, 0, 1, 2, &[0x0002_0000, 0xB2, 7, 7]);
    cases::xor(&index, 0, 1, 2, &[0x0002_0000, 0x82, 7, 7]);
    cases::and_not(&index, 0, 1, 2, &[0x0002_0000, 0x02, 7, 7]);
    cases::not(&index, 0, 2, &[0x0002_0000, 0xCD, 7, 7]);
}

// Their parts of the index, and that there is no third.
fn parts() {
    let index = [1, 8, 2, 7, 2, 9, 2, 0x0002_0000, 0x32, 0x0002_0000, 0xB0];
    let none = [0];
    cases::bitmap(&index, 0, &[0x0002_0000, 0x32]);
    cases::bitmap(&index, 1, &[0x0002_0000, 0xB0]);
    cases::bitmap(&index, 2, &none[0..0]);
}

// Three stretches over 96 rows.
fn stretches() {
    let index = [
        1,
        96,
        2,
        7,
        1,
        8,
        4,
        0x0000_0006,
        0x0002_0000,
        0x20,
        0x0002_0002,
        1,
    ];
    let list = [0, 1];
    cases::threshold(&index, &list, 1, 4, 3, &[0x0002_0000, 0x20, 0x0002_0002, 1]);
}

// WAH bodies: 62 rows with none set, single clean segments, 40 rows all set; a fill of no segments, a pad bit, a fill
// past the end.
fn wah_bodies() {
    cases::compresses(Format::Wah, 62, &[0, 0], 1, &[0x8000_0002, 7, 7, 7]);
    cases::compresses(Format::Wah, 31, &[0x7FFF_FFFF], 1, &[0x7FFF_FFFF, 7, 7, 7]);
    cases::compresses(
        Format::Wah,
        40,
        &[0xFFFF_FFFF, 0xFF],
        1,
        &[0xC000_0002, 7, 7, 7],
    );
    cases::expands(
        Format::Wah,
        40,
        &[0x7FFF_FFFF, 0x1FF],
        2,
        &[0xFFFF_FFFF, 0xFF, 7, 7],
    );
    cases::faulty(
        Format::Wah,
        &[0x8000_0002, 0x8000_0000],
        62,
        Fault::EmptyFill,
        1,
    );
    cases::faulty(
        Format::Wah,
        &[0x7FFF_FFFF, 0x7FFF_FFFF],
        40,
        Fault::PadBit,
        1,
    );
    cases::faulty(Format::Wah, &[0x8000_0003], 62, Fault::WrongSegments, 0);
}

// Written anew: either way, and to the same format.
fn rewriting() {
    cases::rewrites(
        Format::Wah,
        Format::Ewah,
        40,
        &[0x7FFF_FFFF, 0x1FF],
        1,
        &[5, 7, 7, 7],
    );
    cases::rewrites(
        Format::Ewah,
        Format::Wah,
        40,
        &[5],
        1,
        &[0xC000_0002, 7, 7, 7],
    );
    cases::rewrites(
        Format::Wah,
        Format::Wah,
        40,
        &[0x7FFF_FFFF, 0x1FF],
        1,
        &[0xC000_0002, 7, 7, 7],
    );
}

// LOOPED with WAH bodies.
fn looped_wah() {
    let index = [2, 4, 3, 9, 1, 10, 1, 11, 1, 3, 0xE, 8];
    let list = [0, 1, 2];
    cases::sound(&index);
    cases::threshold(&index, &list, 2, 1, 1, &[0xA, 7, 7, 7]);
}

fn main() {
    short_bodies();
    forty_rows();
    ninety_six_rows();
    looped();
    eight_rows();
    parts();
    stretches();
    wah_bodies();
    rewriting();
    looped_wah();
}
