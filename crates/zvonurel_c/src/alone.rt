// One WAH body alone: the calls of `lib` on an EWAH body, one for one, with `zv_wah_` before their names.
// Kept: one export for each format: the names are C's, and C has no enum of this library's.
ghost use Rattle.std.specs.Prelude.{length};
ghost use Rattle.meaning.specs.declared.Format.TheVariants.{Wah};
ghost use Rattle.meaning.specs.Answer as meaning;
ghost use Rattle.replies.specs.Exported.{Checks, Flags, Numbers, Writes};

use replies::reply::{ZvChecked, ZvFlag, ZvNumber, ZvWritten};
use zvonurel::Format;

#[unsafe(no_mangle)]
pub extern "C" fn zv_wah_check_body(body: &[u32], rows: u32) -> ZvChecked
    ensures { Checks (meaning.check_body Wah rows body.now) result }
{
    ZvChecked::from(zvonurel::check_body(Format::Wah, body, rows))
}

#[unsafe(no_mangle)]
pub extern "C" fn zv_wah_body_row(body: &[u32], rows: u32, row: u32) -> ZvFlag
    ensures { Flags (meaning.body_row Wah rows body.now row) result }
{
    ZvFlag::from(zvonurel::body_row(Format::Wah, body, rows, row))
}

#[unsafe(no_mangle)]
pub extern "C" fn zv_wah_body_count(body: &[u32], rows: u32) -> ZvNumber
    ensures { Numbers (meaning.body_count Wah rows body.now) result }
{
    ZvNumber::from(zvonurel::body_count(Format::Wah, body, rows))
}

#[unsafe(no_mangle)]
pub extern "C" fn zv_wah_body_nth(body: &[u32], rows: u32, n: u32) -> ZvNumber
    ensures { Numbers (meaning.body_nth Wah rows body.now n) result }
{
    ZvNumber::from(zvonurel::body_nth(Format::Wah, body, rows, n))
}

#[unsafe(no_mangle)]
pub extern "C" fn zv_wah_expand(body: &[u32], rows: u32, out: &mut [u32]) -> ZvWritten
    ensures { Writes (meaning.expand Wah rows body.now (length out.old))
        result out.old out.new }
{
    ZvWritten::from(zvonurel::expand(Format::Wah, body, rows, out))
}

#[unsafe(no_mangle)]
pub extern "C" fn zv_wah_compress(rows: u32, plain: &[u32], out: &mut [u32]) -> ZvWritten
    ensures { Writes (meaning.compress Wah rows plain.now (length out.old))
        result out.old out.new }
{
    ZvWritten::from(zvonurel::compress(Format::Wah, rows, plain, out))
}
