// The writer found again in an EWAH body: whether the body is in canonical form, and then the writer as it was before
// the segment that is not whole, with that segment's rows.
// Calls here have a `requires`; the public ones of `zvonurel` test their input first.
#![tactic(auto)]

ghost use Rattle.std.specs.Prelude.{◌≡◌, List, ℕ, ◌-◌, ◌≤◌};
ghost use Rattle.meaning.specs.Limits.{most_rows};
ghost use Rattle.laws.specs.Laws.{EwahFacts};
ghost use Rattle.resume.specs.Scan.{follows_of};
ghost use Rattle.resume.specs.Resume.{ResumedIs, Resumes, LastMarker, Walked, draft_of};

use ewah::marker;
use ewah::marker::Marker;
use ewah_write::writer::Writer;
use ewah_write::{dirty, writer};
use meaning::{MOST_CLEAN, MOST_DIRTY};
use words::bits;

// The writer of the segments that are whole, and the rows behind them, fewer than a segment's, as the lowest bits of a
// word.
#[derive(Clone, Copy)]
pub struct Place {
    pub writer: Writer,
    pub part: u32,
}

// Whether marker m may stand behind the marker `last`: it has a clean run that `last` could not take, or dirty words
// that it could not.
#[tactic(auto, unfolding(crate::specs::Scan::follows_of))]
fn follows(last: Marker, m: Marker) -> bool
    ensures { result ≡ follows_of last.value last.clean last.dirty m.value m.clean m.dirty }
{
    if m.clean == 0 {
        return m.value == 0 && m.dirty != 0 && last.dirty == MOST_DIRTY;
    }
    last.dirty != 0 || last.value != m.value || MOST_CLEAN <= last.clean
}

// The writer before the last segment: the last marker counts one fewer, and where it counted that one alone, it is the
// writer before that marker.
fn back(before: Writer, w: Writer) -> Writer
    requires { (b : List ℕ) × (n : ℕ) × LastMarker b n before w }
    ensures { (b : List ℕ) (n : ℕ) → LastMarker b n before w → Resumes b result (draft_of b (n - 1)) }
{
    let last = w.last;
    if last.clean + last.dirty == 1 {
        return before;
    }
    if last.dirty != 0 {
        let used = w.used - 1;
        let dirty = last.dirty - 1;
        return Writer {
            used,
            at: w.at,
            last: Marker {
                value: last.value,
                clean: last.clean,
                dirty,
            },
        };
    }
    let clean = last.clean - 1;
    Writer {
        used: w.used,
        at: w.at,
        last: Marker {
            value: last.value,
            clean,
            dirty: 0,
        },
    }
}

// The end of the walk. A last segment of fewer rows than 32 is taken back, and its word is its rows: of a run the value
// in each row, else the body's last word, which in canonical form has not all of them set.
fn end(body: &[u32], rows: u32, before: Writer, w: Writer) -> Option<Place>
    requires { EwahFacts rows body.now × Walked body.now before w }
    ensures { ResumedIs rows body.now result }
{
    let have = rows & 31;
    if have == 0 {
        return Some(Place { writer: w, part: 0 });
    }
    let all = bits::low_ones(have);
    let whole = back(before, w);
    let last = w.last;
    if last.dirty == 0 {
        let run = last.value * all;
        return Some(Place {
            writer: whole,
            part: run,
        });
    }
    let at = body.len() - 1;
    let x = body[at];
    if x == all {
        return None;
    }
    Some(Place {
        writer: whole,
        part: x,
    })
}

// Of a sound body of so many rows: its writer, if it is in canonical form. The walk reads each word once.
pub fn resume(body: &[u32], rows: u32) -> Option<Place>
    requires { (rows ≤ most_rows) × EwahFacts rows body.now }
    ensures { ResumedIs rows body.now result }
{
    let mut w = writer::start();
    let mut before = w;
    let mut at: usize = 0;
    while at < body.len() {
        let m = marker::read(body[at]);
        let from = at + 1;
        let next = from + m.dirty as usize;
        if !follows(w.last, m) {
            return None;
        }
        if !dirty::all_mixed(&body[from..next]) {
            return None;
        }
        before = w;
        w = Writer {
            used: next,
            at,
            last: m,
        };
        at = next;
    }
    end(body, rows, before, w)
}
