// The nth set row.
ghost use Rattle.std.specs.Prelude.{◌≡◌, ◌≤◌};
ghost use Rattle.meaning.specs.Limits.{most_rows};
ghost use Rattle.meaning.specs.Format.{rows_of};
ghost use Rattle.laws.specs.Laws.{SoundFacts};
ghost use Rattle.meaning.specs.Answer.{ask_nth};
ghost use Rattle.answers.specs.Told.{found_of};

use meaning::Format;

// The nth set row of a body, from 0.
pub fn nth(format: Format, body: &[u32], rows: u32, n: u32) -> Option<u32>
    requires { (rows ≤ most_rows) × SoundFacts format rows body.now }
    ensures { found_of result ≡ ask_nth rows (rows_of format body.now) n }
{
    match format {
        Format::Ewah => ewah_nth::nth::nth(body, rows, n),
        Format::Wah => wah_read::nth::nth(body, rows, n),
    }
}
