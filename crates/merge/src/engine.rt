// The engine behind every question over a list: stretch by stretch, the cursors go on together and the answer's part
// is emitted.
ghost use Rattle.std.specs.Prelude.{◌≡◌, true, ◌≤◌, length};
ghost use Rattle.merge.specs.Merges.{Mergeable, MergedTo, answer_body};

use crate::evaluate::Operation;
use crate::{emit, evaluate};
use answers::answer::Report;
use body_write::writer;
use ewah::cursor::Cursor;
use meaning::{MOST_NAMED, SHORT_NAMED};
use walk::query::ENDED;
use walk::survey;
use words::frame::Frame;

// The answer, written to the front of `out` where `store` says so, and else only measured: how many words it has, and how many
// stretches were passed. There is a cursor for each of the list's places.
fn merge_over(
    index: &[u32],
    list: &[u32],
    op: Operation,
    table: &[u32],
    out: &mut [u32],
    store: bool,
    cursors: &mut [Cursor],
) -> Report
    requires mergeable { Mergeable index.now list.now op table.now }
    requires table_in_bounds { store ≡ true → length (answer_body index.now list.now op table.now) ≤ length out.old }
    requires cursors_len { length cursors.old ≡ length list.now }
    ensures { MergedTo index.now list.now op table.now
        out.old store out.new result }
{
    let frame = Frame::of(contents::format(index), contents::rows(index));
    survey::open(frame.format, index, list, cursors);
    let mut s = survey::all(cursors);
    let mut w = writer::start(frame.format);
    let mut o: u32 = 0;
    let mut stretches: u32 = 0;
    // Kept: a turn goes on by a stretch, however long that is; a `for` has no such step.
    while o < frame.segments {
        let end = o + s.least;
        let mask = frame.mask(end);
        let part = evaluate::evaluate(op, table, s, mask, frame.full);
        w = emit::emit(frame.format, out, w, part, mask, store);
        s = survey::advance(frame.format, index, list, cursors, s.least);
        o = end;
        stretches += 1;
    }
    Report {
        words: w.used,
        stretches,
    }
}

// The same, with as few cursors as will do: less is cleared for a short list.
pub fn merge(
    index: &[u32],
    list: &[u32],
    op: Operation,
    table: &[u32],
    out: &mut [u32],
    store: bool,
) -> Report
    requires mergeable { Mergeable index.now list.now op table.now }
    requires table_in_bounds { store ≡ true → length (answer_body index.now list.now op table.now) ≤ length out.old }
    ensures { MergedTo index.now list.now op table.now
        out.old store out.new result }
{
    if list.len() <= SHORT_NAMED {
        let mut short = [ENDED; SHORT_NAMED];
        return merge_over(index, list, op, table, out, store, &mut short[..list.len()]);
    }
    let mut long = [ENDED; MOST_NAMED];
    merge_over(index, list, op, table, out, store, &mut long[..list.len()])
}
