// A row, and the piece that it lies in.
ghost use Rattle.std.specs.Prelude.{◌≡◌, ℕ, ◌≤◌, ◌<◌, ◌/◌, ◌%◌};
ghost use Rattle.meaning.specs.Limits.{most_rows};
ghost use Rattle.meaning.specs.Format.{width, segments_of, pieces_of, rows_of};
ghost use Rattle.meaning.specs.Extent.{row_answer};
ghost use Rattle.laws.specs.Laws.{SoundFacts};
ghost use Rattle.extent.specs.Place.{PlaceOf};

use extent::Place;
use meaning::{Format, Row};
use words::{bits, rows};

// Where the segment of row r is written, by the format's own walk, and the row's bit in it.
fn locate(format: Format, body: &[u32], r: u32) -> (Place, u32)
    requires { (R : ℕ) × SoundFacts format R body.now × (r < R) }
    ensures place { PlaceOf (segments_of format body.now) (pieces_of format body.now) (r / width format) result.0 }
    ensures bit { result.1 ≡ r % width format }
{
    match format {
        Format::Ewah => (ewah_read::row::locate(body, r / 32), r % 32),
        Format::Wah => (wah_read::row::locate(body, r / 31), r % 31),
    }
}

// The answer on row r, in a sound body of more than r rows.
pub fn row(format: Format, body: &[u32], rows: u32, r: u32) -> Row
    requires { (rows ≤ most_rows) × SoundFacts format rows body.now × (r < rows) }
    ensures { result ≡ row_answer format rows body.now r }
{
    let (place, bit) = locate(format, body, r);
    let set = bits::has(place.word, bit);
    extent::row(set, place.from, place.size, rows::width(format), rows)
}

// Whether row r is set, in a sound body of more than r rows, and no more: for a column, which asks it of each slice.
pub fn is_set(format: Format, body: &[u32], r: u32) -> bool
    requires { (R : ℕ) × SoundFacts format R body.now × (r < R) }
    ensures { result ≡ rows_of format body.now r }
{
    let (place, bit) = locate(format, body, r);
    bits::has(place.word, bit)
}
