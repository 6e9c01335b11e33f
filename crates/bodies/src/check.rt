// The first fault of a body of either format.
ghost use Rattle.std.specs.Prelude.{◌≡◌, ◌+◌, ◌≤◌, ◌<◌, ◌^◌, length};
ghost use Rattle.meaning.specs.Limits.{most_rows};
ghost use Rattle.meaning.specs.Format.{body_fault};
ghost use Rattle.answers.specs.Told.{outcome_of};

use answers::refusal::Refusal;
use meaning::Format;

// Of bitmap number `bitmap`, a body of that many rows whose first word has the place `start`. Inline: a call for each
// short body would slow the check of an index, and the compiler leaves it out where it may.
#[inline(always)]
pub fn check(
    format: Format,
    body: &[u32],
    rows: u32,
    bitmap: u32,
    start: u64,
) -> Result<(), Refusal>
    requires rows_le_most_rows { rows ≤ most_rows }
    requires body_bound { start + length body.now < 2 ^ 64 }
    ensures { outcome_of result ≡ body_fault format bitmap start rows body.now }
{
    match format {
        Format::Ewah => ewah::check::check(body, rows, bitmap, start),
        Format::Wah => wah::check::check(body, rows, bitmap, start),
    }
}
