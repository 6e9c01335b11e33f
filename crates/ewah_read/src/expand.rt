// A body read into plain words.
ghost use Rattle.std.specs.Prelude.{◌≡◌, ◌++◌, ◌+◌, ◌≤◌, ◌<◌, length, drop, replicate};
ghost use Rattle.meaning.specs.Limits.{most_rows};
ghost use Rattle.meaning.specs.Segment.{fill, segment_count, from_rows};
ghost use Rattle.meaning.specs.Ewah.{segments, ewah_rows, due_after};
ghost use Rattle.laws.specs.Laws.{EwahFacts};

use ewah::marker::{self, Markers};
use words::{bits, copies, rows};

// The words are one marker's segments: its clean run, and then its dirty words.
fn place(out: &mut [u32], value: u32, clean: usize, dirty: &[u32])
    requires { (value < 2) × (length out.old ≡ clean + length dirty.now) }
    ensures { out.new ≡ replicate clean (fill 32 value) ++ dirty.now }
{
    let (run, words) = out.split_at_mut(clean);
    run.fill(marker::segment(value));
    copies::copy(words, dirty);
}

// The first words are the body's segments, as it spells them; those behind stay.
fn spread(body: &[u32], out: &mut [u32])
    requires { (due_after 0 body.now ≡ 0) × (length (segments body.now) ≤ length out.old) }
    ensures { out.new
        ≡ segments body.now ++ drop (length (segments body.now)) out.old }
{
    let mut o = 0;
    for (m, dirty) in Markers::of(body) {
        let clean = m.clean as usize;
        let end = o + clean + dirty.len();
        place(&mut out[o..end], m.value, clean, dirty);
        o = end;
    }
}

// The first words are those of the body's rows, with no pad bit set; those behind stay.
pub fn expand(body: &[u32], rows: u32, out: &mut [u32])
    requires { (rows ≤ most_rows) × EwahFacts rows body.now × (segment_count 32 rows ≤ length out.old) }
    ensures { out.new
        ≡ from_rows 32 rows (ewah_rows body.now) ++ drop (segment_count 32 rows) out.old }
{
    spread(body, out);
    if rows == 0 {
        return;
    }
    let last = ((rows - 1) >> 5) as usize;
    out[last] &= bits::low_ones(rows::last_rows::<32>(rows));
}
