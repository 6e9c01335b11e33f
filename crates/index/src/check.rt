// The first fault of an index: of its head, of its entries one by one, of its bodies one by one.
ghost use Rattle.std.specs.Prelude.{◌≡◌, ◌≤◌, ◌<◌, length};
ghost use Rattle.meaning.specs.Format.{body_fault};
ghost use Rattle.meaning.specs.Index.{is_kind, format_of, row_count, bitmap_count, entry_place, start_of, body_at};
ghost use Rattle.meaning.specs.Index.{head_fault, entries_fault, bodies_fault, index_fault};
ghost use Rattle.laws.specs.Laws.{HeadFacts, EntryFacts};
ghost use Rattle.answers.specs.Told.{outcome_of};
ghost use Rattle.index.specs.Entries.{Stepped};

use answers::refusal::{Fault, Refusal};
use meaning::{EWAH_KIND, Format, HEAD_WORDS, MOST_BITMAPS, MOST_INDEX_WORDS, MOST_ROWS, WAH_KIND};

// Of that bitmap, at a word of the index.
fn refusal(fault: Fault, bitmap: u32, word: usize) -> Refusal
    ensures { result ≡ record { fault = fault; bitmap = bitmap; word = word } }
{
    Refusal {
        fault,
        bitmap,
        word: word as u64,
    }
}

// Whether word 0 states a kind that is known.
fn is_kind(x: u32) -> bool
    ensures { result ≡ is_kind x }
{
    x == EWAH_KIND || x == WAH_KIND
}

// The head: the index's length, word 0, the rows, the number of bitmaps, and room for the contents.
fn check_head(index: &[u32]) -> Result<(), Refusal>
    ensures { outcome_of result ≡ head_fault index.now }
{
    let words = index.len();
    if MOST_INDEX_WORDS < words {
        return Err(refusal(Fault::TooLarge, 0, 0));
    }
    if words < HEAD_WORDS {
        return Err(refusal(Fault::CutOff, 0, words));
    }
    if !is_kind(index[0]) {
        return Err(refusal(Fault::UnknownKind, 0, 0));
    }
    if MOST_ROWS < index[1] {
        return Err(refusal(Fault::TooLarge, 0, 1));
    }
    if MOST_BITMAPS < index[2] {
        return Err(refusal(Fault::TooLarge, 0, 2));
    }
    if words < contents::entry_place(index, index[2]) {
        return Err(refusal(Fault::CutOff, 0, words));
    }
    Ok(())
}

// Entry k, where its body has to start at `end`: where the next body has to start.
fn entry_step(index: &[u32], k: u32, end: usize) -> Result<usize, Refusal>
    requires head_facts { HeadFacts index.now }
    requires k_bound { k < bitmap_count index.now }
    requires end_in_bounds { end ≤ length index.now }
    ensures { Stepped index.now k end result }
{
    let place = contents::entry_place(index, k);
    if contents::start(index, k) != end {
        return Err(refusal(Fault::WrongContents, k, place));
    }
    let words = contents::words(index, k);
    if index.len() - end < words {
        return Err(refusal(Fault::WrongContents, k, place + 1));
    }
    Ok(end + words)
}

// The entries, and the final end.
fn check_entries(index: &[u32]) -> Result<(), Refusal>
    requires { HeadFacts index.now }
    ensures { outcome_of result ≡ entries_fault index.now 0 (bitmap_count index.now)
        (entry_place index.now (bitmap_count index.now)) }
{
    let n = contents::bitmaps(index);
    let mut end = contents::entry_place(index, n);
    for k in 0..n {
        end = entry_step(index, k, end)?;
    }
    if end < index.len() {
        return Err(refusal(Fault::WrongContents, 0, end));
    }
    Ok(())
}

// Body k, with places counted from word 0 of the index.
fn check_body(format: Format, index: &[u32], rows: u32, k: u32) -> Result<(), Refusal>
    requires head_facts { HeadFacts index.now }
    requires entry_facts { EntryFacts index.now }
    requires k_bound { k < bitmap_count index.now }
    requires rows_value { (rows ≡ row_count index.now) × (format ≡ format_of index.now) }
    ensures { outcome_of result ≡ body_fault (format_of index.now) k (start_of index.now k) rows
        (body_at index.now k) }
{
    let start = contents::start(index, k);
    let body = contents::body(index, k);
    bodies::check::check(format, body, rows, k, start as u64)
}

// The bodies.
fn check_bodies(index: &[u32]) -> Result<(), Refusal>
    requires head_facts { HeadFacts index.now }
    requires entry_facts { EntryFacts index.now }
    ensures { outcome_of result ≡ bodies_fault index.now 0 (bitmap_count index.now) }
{
    let rows = contents::rows(index);
    let format = contents::format(index);
    let bitmaps = contents::bitmaps(index);
    for k in 0..bitmaps {
        check_body(format, index, rows, k)?;
    }
    Ok(())
}

// The whole index.
pub fn check(index: &[u32]) -> Result<(), Refusal>
    ensures { outcome_of result ≡ index_fault index.now }
{
    check_head(index)?;
    check_entries(index)?;
    check_bodies(index)
}
