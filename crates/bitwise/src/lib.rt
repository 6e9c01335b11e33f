// A count that tests the 32 bits of each dirty word one by one, as a measure of how much faster the library counts:
// `bench` alone links it, and nothing of the library uses it. It checks the body as the library does, and its answers are
// the same.
#![tactic(auto)]

ghost use Rattle.std.specs.Prelude.{◌≡◌};
ghost use Rattle.meaning.specs.declared.Format.TheVariants.{Ewah};
ghost use Rattle.meaning.specs.Answer as meaning;
ghost use Rattle.answers.specs.Told.{outcome_of};
ghost use Rattle.replies.specs.Exported.{Numbers};

use answers::refusal::Refusal;
use meaning::Format;
pub use replies::reply::ZvNumber;

pub mod count;

// How many rows are set, of one body alone: the contract is that of `zvonurel::body_count`.
pub fn body_count(body: &[u32], rows: u32) -> Result<u32, Refusal>
    ensures { outcome_of result ≡ meaning.body_count Ewah rows body.now }
{
    on_bodies::check_body(Format::Ewah, body, rows)?;
    Ok(count::count(body, rows))
}

// For C: the contract is that of `zv_body_count`.
#[unsafe(no_mangle)]
pub extern "C" fn zv_body_count_bitwise(body: &[u32], rows: u32) -> ZvNumber
    ensures { Numbers (meaning.body_count Ewah rows body.now) result }
{
    ZvNumber::from(body_count(body, rows))
}
