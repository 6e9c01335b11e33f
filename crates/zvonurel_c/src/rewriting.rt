// Rewriting into a body, or an index, of the format that a call is named for:
// of a body alone, of a bitmap, of a whole index.
// Kept: one export for each format: the names are C's, and C has no enum of this library's.
ghost use Rattle.std.specs.Prelude.{length};
ghost use Rattle.meaning.specs.declared.Format.TheVariants.{Ewah, Wah};
ghost use Rattle.meaning.specs.Rewriting as rewriting;
ghost use Rattle.replies.specs.Exported.{Writes};

use replies::reply::ZvWritten;
use zvonurel::Format;

// ---- one body alone

#[unsafe(no_mangle)]
pub extern "C" fn zv_body_to_ewah(body: &[u32], rows: u32, out: &mut [u32]) -> ZvWritten
    ensures { Writes (rewriting.rewrite Ewah Ewah rows body.now (length out.old))
        result out.old out.new }
{
    ZvWritten::from(zvonurel::rewrite(Format::Ewah, Format::Ewah, body, rows, out))
}

#[unsafe(no_mangle)]
pub extern "C" fn zv_body_to_wah(body: &[u32], rows: u32, out: &mut [u32]) -> ZvWritten
    ensures { Writes (rewriting.rewrite Ewah Wah rows body.now (length out.old))
        result out.old out.new }
{
    ZvWritten::from(zvonurel::rewrite(Format::Ewah, Format::Wah, body, rows, out))
}

#[unsafe(no_mangle)]
pub extern "C" fn zv_wah_body_to_ewah(body: &[u32], rows: u32, out: &mut [u32]) -> ZvWritten
    ensures { Writes (rewriting.rewrite Wah Ewah rows body.now (length out.old))
        result out.old out.new }
{
    ZvWritten::from(zvonurel::rewrite(Format::Wah, Format::Ewah, body, rows, out))
}

#[unsafe(no_mangle)]
pub extern "C" fn zv_wah_body_to_wah(body: &[u32], rows: u32, out: &mut [u32]) -> ZvWritten
    ensures { Writes (rewriting.rewrite Wah Wah rows body.now (length out.old))
        result out.old out.new }
{
    ZvWritten::from(zvonurel::rewrite(Format::Wah, Format::Wah, body, rows, out))
}

// ---- a bitmap of an index

#[unsafe(no_mangle)]
pub extern "C" fn zv_bitmap_to_ewah(index: &[u32], k: u32, out: &mut [u32]) -> ZvWritten
    ensures { Writes (rewriting.rewrite_bitmap index.now k Ewah (length out.old))
        result out.old out.new }
{
    ZvWritten::from(zvonurel::rewrite_bitmap(index, k, Format::Ewah, out))
}

#[unsafe(no_mangle)]
pub extern "C" fn zv_bitmap_to_wah(index: &[u32], k: u32, out: &mut [u32]) -> ZvWritten
    ensures { Writes (rewriting.rewrite_bitmap index.now k Wah (length out.old))
        result out.old out.new }
{
    ZvWritten::from(zvonurel::rewrite_bitmap(index, k, Format::Wah, out))
}

// ---- a whole index

#[unsafe(no_mangle)]
pub extern "C" fn zv_index_to_ewah(index: &[u32], out: &mut [u32]) -> ZvWritten
    ensures { Writes (rewriting.rewrite_index index.now Ewah (length out.old))
        result out.old out.new }
{
    ZvWritten::from(zvonurel::rewrite_index(index, Format::Ewah, out))
}

#[unsafe(no_mangle)]
pub extern "C" fn zv_index_to_wah(index: &[u32], out: &mut [u32]) -> ZvWritten
    ensures { Writes (rewriting.rewrite_index index.now Wah (length out.old))
        result out.old out.new }
{
    ZvWritten::from(zvonurel::rewrite_index(index, Format::Wah, out))
}
