// The program: T and an index on standard input, and the rows that at least T of its bitmaps have on standard output.
#![tactic(auto)]

ghost use Rattle.std.specs.Prelude.{◌+◌, ◌≡◌, length, IfSome, OnOk};
ghost use Rattle.std.specs.Io.KnownBytes.{Appends};
ghost use Rattle.threshold.specs.Output.{most_bytes, output_of};
ghost use Rattle.text.specs.Listings.{lines_left};

use arrayvec::ArrayString;
use input::MOST_BYTES;
use std::fmt::{Display, Write as _};
use std::io;
use std::io::{Read, Write};
use streams::Got;
use text::lines::RefusalLine;
use text::listing::Listing;

mod input;
mod start;
mod streams;

// Room for the lines in front of the listing.
const HEAD_BYTES: usize = 128;

// The bytes of a chunk of the listing: a line is put in as long as 21 bytes of 64 KiB are left, of which it takes 11 at most.
const CHUNK_BYTES: usize = 65536 - 10;

// Room for the longest input, and one byte more.
fn room() -> [u8; MOST_BYTES + 1]
    ensures { most_bytes + 1 ≡ length result }
{
    [0; MOST_BYTES + 1]
}

// The bytes of a chunk.
fn bytes_of<const N: usize>(text: &ArrayString<N>) -> &[u8]
    ensures { result.now ≡ text.now.bytes }
{
    text.as_str().as_bytes()
}

// Writes a text of a few lines at once, since a reader is not to see a part of it; one that has no room there, in parts.
fn say<W: Write, D: Display + Copy + Drop>(writer: &mut W, text: D) -> io::Result<()>
    ensures { OnOk result (IfSome (D.output text) (Appends (W.contents writer.old) (W.contents writer.new))) }
{
    let mut lines = ArrayString::<HEAD_BYTES>::new();
    if write!(lines, "{text}").is_err() {
        return write!(writer, "{text}");
    }
    writer.write_all(lines.as_str().as_bytes())
}

// Writes the lines of a body's set rows, chunk by chunk: each is what comes next of the listing, and all together are the
// whole of it. It ends at a write that fails.
fn list<W: Write>(writer: &mut W, mut listing: Listing<'_>) -> io::Result<()>
    ensures { OnOk result (Appends (W.contents writer.old) (W.contents writer.new) (lines_left listing.entry)) }
{
    let mut chunk = ArrayString::<CHUNK_BYTES>::new();
    // Kept: a turn lists as many rows as a chunk takes; a `for` has no such step.
    while listing.row < listing.rows {
        listing.fill(&mut chunk);
        writer.write_all(bytes_of(&chunk))?;
        chunk.clear();
    }
    Ok(())
}

// From a reader to a writer. Where no read and no write fails, what is written is `output_of` all that the reader has.
// Input that can't be read any further counts as ended: its output is written, and the error is told then.
fn run<R: Read, W: Write>(reader: &mut R, writer: &mut W) -> io::Result<()>
    ensures { OnOk result (IfSome (R.remaining reader.old)
        (λ input. Appends (W.contents writer.old) (W.contents writer.new) (output_of input))) }
{
    let mut input = room();
    let Got { bytes, ended } = streams::read_full(reader, &mut input);
    let mut answer = start::word_room();
    match start::begin(&input[..bytes], &mut answer) {
        Err(refusal) => say(writer, RefusalLine(refusal))?,
        Ok(begun) => {
            let head = begun.head;
            say(writer, head)?;
            list(
                writer,
                Listing::new(begun.format, &answer[..begun.words], head.rows),
            )?;
        }
    }
    ended
}

// It ends with status 0 even where the system refuses a read or a write: then the output is cut.
fn main(rt: HostRuntime) {
    let _ = run(&mut rt.stdin(), &mut rt.stdout());
}
