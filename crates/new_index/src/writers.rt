// The writers of several bodies at once, and one row more for each of them.
ghost use Rattle.std.specs.Prelude.{◌≡◌, true, false, [], ℕ, ◌-◌, ◌*◌, ◌≤◌, ◌<◌, ◌^◌, length, get_or};
ghost use Rattle.meaning.specs.Limits.{most_value_column, block_segments};
ghost use Rattle.meaning.specs.Format.{most_run};
ghost use Rattle.body_write.specs.Bodies.{Stands, Growing, RoomFor};
ghost use Rattle.block_write.specs.Rowed.{CleanWord};
ghost use Rattle.new_index.specs.Writers.{writer_of, Laid, region, row_of, EmittedAll};

use body_write::writer;
use ewah_write::writer::Writer;
use meaning::{BLOCK_SEGMENTS, Format, MOST_VALUE_COLUMN};

// No body has a word yet.
pub fn start(format: Format) -> [Writer; MOST_VALUE_COLUMN]
    ensures { (length result ≡ most_value_column)
        × ((i : ℕ) → i < most_value_column → Stands format (writer_of result i) []) }
{
    [writer::start(format); MOST_VALUE_COLUMN]
}

// The next n segments of each body that has a writer, row i of `rows` for body i: written to the part of `out` between start i
// and start i + 1 where `store` says so, and else only measured.
pub fn emit_all(
    format: Format,
    out: &mut [u32],
    starts: &[usize],
    writers: &mut [Writer],
    rows: &[u32],
    n: u32,
    even: bool,
    mask: u32,
    store: bool,
)
    requires rows_len { (length writers.old * block_segments ≤ length rows.now)
        × (1 ≤ n) × (n ≤ most_run format) × (even ≡ false → n ≤ block_segments) }
    requires laid { Laid starts.now (length writers.old) (length out.old) }
    requires by_index { (i : ℕ) → i < length writers.old → Growing format (writer_of writers.old i) n }
    requires clean_word { even ≡ true → (i : ℕ) → i < length writers.old
        → CleanWord format (get_or rows.now (i * block_segments) 0) }
    requires room_for { store ≡ true → (i : ℕ) → i < length writers.old
        → RoomFor format (row_of format rows.now n even i) (writer_of writers.old i)
        (length (region starts.now out.old i)) }
    ensures { (real : ℕ) → mask ≡ 2 ^ real - 1
        → EmittedAll format real starts.now out.old out.new
        writers.old writers.new (length writers.old) (row_of format rows.now n even) store }
{
    let long = block_write::row_length(n, even);
    for i in 0..writers.len() {
        let from = starts[i];
        let to = starts[i + 1];
        let row = i * BLOCK_SEGMENTS;
        let v = block_write::emit_row(
            format,
            &mut out[from..to],
            writers[i],
            &rows[row..row + long],
            n,
            even,
            mask,
            store,
        );
        writers[i] = v;
    }
}
