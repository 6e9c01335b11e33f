// Readings whose bodies are too long for the prover to compute: the compiled calls write them, and what they are is printed.
// The file `stdout` has what is expected, and the gate compares.
#![tactic(auto)]

ghost use Rattle.std.specs.Prelude.{◌≤◌, ◌≡◌, length};

use std::io;
use std::ops::Range;
use zvonurel::{Format, Refusal};

// A body's words in that range, or to its end.
fn words(rt: &impl Print, body: &[u32], shown: Range<usize>) -> io::Result<()> {
    for word in body.iter().take(shown.end).skip(shown.start) {
        print!(rt; " {word:08x}")?;
    }
    Ok(())
}

// How many rows are set in a body.
fn set(rt: &impl Print, format: Format, body: &[u32], rows: u32) -> io::Result<()> {
    match zvonurel::body_count(format, body, rows) {
        Ok(count) => print!(rt; ", set {count}"),
        Err(refusal) => print!(rt; " {refusal}"),
    }
}

// What a call wrote: the number of words, the words in a range, and how many rows are set when they are
// read again.
fn reading(
    rt: &impl Print,
    format: Format,
    rows: u32,
    written: Result<usize, Refusal>,
    out: &[u32],
    shown: Range<usize>,
) -> io::Result<()> {
    print!(rt; "rows {rows}")?;
    match written {
        Ok(n) => {
            let from = shown.start;
            print!(rt; ", words {n}, from {from}:")?;
            if let Some(body) = out.get(..n) {
                words(rt, body, shown)?;
                set(rt, format, body, rows)?;
            }
        }
        Err(refusal) => print!(rt; " {refusal}")?,
    }
    println!(rt;)
}

// No row is set in the XOR of a bitmap with itself. The bitmap has every row, in runs that are not in canonical form:
// the call has to part them anew. (Plain words would need a large array.)
fn none_set(rt: &impl Print, format: Format, rows: u32, index: &[u32]) -> io::Result<()> {
    let mut out: [u32; 16] = [0; 16];
    let written = zvonurel::xor(index, 0, 0, &mut out);
    reading(rt, format, rows, written, &out, 0..16)
}

// An index whose bitmap is a run of 8 segments, and eight runs of 65,535.
fn sixteen_million(rt: &impl Print, rows: u32) -> io::Result<()> {
    let f = 0x0001_FFFF;
    none_set(
        rt,
        Format::Ewah,
        rows,
        &[1, rows, 1, 5, 9, 0x11, f, f, f, f, f, f, f, f],
    )
}

// Only the length is told, so that the prover never spells the words out.
fn filled(x: u32) -> [u32; 32770]
    ensures { 32770 ≡ length result }
{
    [x; 32770]
}

// The most rows: a run of 512 segments, 512 runs of 65,535, and a last marker.
fn most_rows(rt: &impl Print, rows: u32, last: u32) -> io::Result<()> {
    let mut index: [u32; 519] = [0x0001_FFFF; 519];
    let mut out = filled(0);
    index[..6].copy_from_slice(&[1, rows, 1, 5, 514, 0x0000_0401]);
    index[518] = last;
    let written = zvonurel::xor(&index, 0, 0, &mut out);
    reading(rt, Format::Ewah, rows, written, &out, 510..513)
}

// Rows 0, 32, 64 and so on: n mixed segments. (A range up to a large literal, in place of n, costs the prover by its
// length.)
fn every_32nd(rt: &impl Print, rows: u32, n: usize, shown: Range<usize>) -> io::Result<()>
    requires { n ≤ 32770 }
{
    let plain = filled(1);
    let mut out = filled(0);
    let written = zvonurel::compress(Format::Ewah, rows, &plain[0..n], &mut out);
    reading(rt, Format::Ewah, rows, written, &out, shown)
}

fn main(rt: HostRuntime) -> io::Result<()> {
    let rt = &rt;
    // Runs of 1 and 65,535 segments; of 0 and 65,535.
    none_set(
        rt,
        Format::Ewah,
        2097152,
        &[1, 2097152, 1, 5, 2, 0x0000_0003, 0x0001_FFFF],
    )?;
    none_set(
        rt,
        Format::Ewah,
        2097120,
        &[1, 2097120, 1, 5, 2, 0x0000_0001, 0x0001_FFFF],
    )?;
    sixteen_million(rt, 16777216)?;
    // The last marker is empty; with one row more it has the last segment, so that nothing but the rows is wrong.
    most_rows(rt, 1073741824, 0x0000_0000)?;
    most_rows(rt, 1073741825, 0x0000_0002)?;
    // In WAH one fill has them all.
    none_set(
        rt,
        Format::Wah,
        1073741824,
        &[2, 1073741824, 1, 5, 1, 0xC210_8422],
    )?;
    none_set(
        rt,
        Format::Wah,
        1073741825,
        &[2, 1073741825, 1, 5, 1, 0xC210_8422],
    )?;
    every_32nd(rt, 1048544, 32767, 0..2)?;
    every_32nd(rt, 1048576, 32768, 32768..32770)?;
    // Plain words are refused for too many rows before their own number is.
    every_32nd(rt, 1073741825, 32770, 0..0)
}
