// How many rows are set.
ghost use Rattle.std.specs.Prelude.{◌≡◌, ◌≤◌};
ghost use Rattle.meaning.specs.Limits.{most_rows};
ghost use Rattle.meaning.specs.Rows.{count_below};
ghost use Rattle.meaning.specs.Format.{rows_of};
ghost use Rattle.laws.specs.Laws.{SoundFacts};

use meaning::Format;

// How many of a body's rows are set.
pub fn count(format: Format, body: &[u32], rows: u32) -> u32
    requires { (rows ≤ most_rows) × SoundFacts format rows body.now }
    ensures { result ≡ count_below rows (rows_of format body.now) }
{
    match format {
        Format::Ewah => ewah_count::count::count(body, rows),
        Format::Wah => wah_read::count::count(body, rows),
    }
}
