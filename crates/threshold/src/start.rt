// From the input to the head of the output, and the body whose rows are to be listed behind it.
ghost use Rattle.std.specs.Prelude.{◌≡◌, ◌≤◌, min, length, get_or, drop};
ghost use Rattle.meaning.specs.Limits.{most_bitmaps};
ghost use Rattle.meaning.specs.Index.{bitmap_count};
ghost use Rattle.threshold.specs.Output as output;
ghost use Rattle.threshold.specs.Begins.{Begins};

use crate::input;
use crate::input::{ANSWER_ROOM, MOST_BYTES, WORD_BYTES};
use answers::refusal::{Fault, Refusal};
use meaning::{Format, MOST_NAMED};
use text::lines::Head;

// An answer: its head, and the body's format and its words, at the front of the answer buffer.
#[derive(Clone, Copy)]
pub struct Begun {
    pub head: Head,
    pub format: Format,
    pub words: usize,
}

// Room for the words of the input, and for those of the answer.
pub fn word_room() -> [u32; ANSWER_ROOM]
    ensures { output.answer_room ≡ length result }
{
    [0; ANSWER_ROOM]
}

// Each number below the most bitmaps.
fn names() -> [u32; MOST_NAMED]
    ensures { result ≡ output.all_named most_bitmaps }
{
    let mut list = [0; MOST_NAMED];
    for i in 0..MOST_NAMED {
        list[i] = i as u32;
    }
    list
}

// How many bitmaps to name: as many as the index says, and at most as many as one may have, since an index that says more is refused.
fn named(index: &[u32]) -> usize
    ensures { result ≡ min (bitmap_count index.now) most_bitmaps }
{
    (index.get(2).copied().unwrap_or(0) as usize).min(MOST_NAMED)
}

// A question: T and an index.
fn ask(t: u32, index: &[u32], answer: &mut [u32]) -> Result<Begun, Refusal>
    requires { length answer.old ≡ output.answer_room }
    ensures { Begins (output.asked t index.now) answer.new result }
{
    let all = names();
    let n = named(index);
    let told = zvonurel::threshold(index, &all[..n], t, answer)?;
    let words = told.words;
    let format = contents::format(index);
    let rows = contents::rows(index);
    let head = Head {
        rows,
        named: contents::bitmaps(index),
        t,
        set: body_read::count::count(format, &answer[..words], rows),
    };
    Ok(Begun {
        head,
        format,
        words,
    })
}

// A question as the words of the input.
fn question(words: &[u32], answer: &mut [u32]) -> Result<Begun, Refusal>
    requires some { 1 ≤ length words.now }
    requires room { length answer.old ≡ output.answer_room }
    ensures { Begins (output.asked (get_or words.now 0 0) (drop 1 words.now)) answer.new result }
{
    ask(words[0], &words[1..], answer)
}

// Whether so many bytes are no whole words, or not even one.
fn ragged(n: usize) -> bool
    ensures { result ≡ output.ragged n }
{
    n < WORD_BYTES || n % WORD_BYTES != 0
}

// The program's own refusal.
fn refusal(fault: Fault) -> Refusal
    ensures { result ≡ record { fault = fault; bitmap = 0; word = 0 } }
{
    Refusal {
        fault,
        bitmap: 0,
        word: 0,
    }
}

// All bytes of the input.
pub fn begin(input: &[u8], answer: &mut [u32]) -> Result<Begun, Refusal>
    requires { length answer.old ≡ output.answer_room }
    ensures { Begins (output.output_of input.now) answer.new result }
{
    let n = input.len();
    if MOST_BYTES < n {
        return Err(refusal(Fault::TooLarge));
    }
    if ragged(n) {
        return Err(refusal(Fault::CutOff));
    }
    let mut words = word_room();
    let end = n / WORD_BYTES;
    input::words(input, &mut words[..end]);
    question(&words[..end], answer)
}
