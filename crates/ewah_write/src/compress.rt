// Plain words as a body in canonical form.
ghost use Rattle.std.specs.Prelude.{◌≡◌, ◌++◌, ◌-◌, ◌≤◌, length, drop, get_or};
ghost use Rattle.meaning.specs.Segment.{kind, kinds, last_rows};
ghost use Rattle.meaning.specs.Canonical.{ewah_of};
ghost use Rattle.laws.specs.Demands.{PlainRows};

use crate::writer;
use words::{bits, rows};

// The last word as the writer takes it: all ones where all its rows are set. It is made before the loop over the others:
// made behind it, its mask would be kept in a register throughout.
fn last_word(plain: &[u32], rows: u32) -> u32
    requires plain_rows { PlainRows rows plain.now }
    requires in_bounds { 1 ≤ length plain.now }
    ensures { kind 32 result
        ≡ kind (last_rows 32 rows) (get_or plain.now (length plain.now - 1) 0) }
{
    let mask = bits::low_ones(rows::last_rows::<32>(rows));
    rows::spelled(plain[plain.len() - 1], mask, 0xFFFF_FFFF)
}

// How many words `write` takes: the same steps with no buffer.
pub fn measure(plain: &[u32], rows: u32) -> usize
    requires { PlainRows rows plain.now }
    ensures { result ≡ length (ewah_of (kinds 32 rows plain.now)) }
{
    if plain.is_empty() {
        return 0;
    }
    let end = last_word(plain, rows);
    let mut w = writer::start();
    for x in &plain[..plain.len() - 1] {
        w = writer::grow_segment(w, *x);
    }
    writer::grow_segment(w, end).used
}

// The body from the front of `out`, in exactly the words that `measure` counts; words behind it keep their values.
pub fn write(plain: &[u32], rows: u32, out: &mut [u32]) -> usize
    requires plain_rows { PlainRows rows plain.now }
    requires plain_in_bounds { length (ewah_of (kinds 32 rows plain.now)) ≤ length out.old }
    ensures value { result ≡ length (ewah_of (kinds 32 rows plain.now)) }
    ensures out_after { out.new
        ≡ ewah_of (kinds 32 rows plain.now) ++ drop result out.old }
{
    if plain.is_empty() {
        return 0;
    }
    let end = last_word(plain, rows);
    let mut w = writer::start();
    for x in &plain[..plain.len() - 1] {
        w = writer::push_segment(out, w, *x);
    }
    writer::push_segment(out, w, end).used
}
