// One reading of each kind: a call, and what it is expected to tell and to leave.
ghost use Rattle.std.specs.Prelude.{◌≡◌, List, ℕ, length, Result, Ok};
ghost use Rattle.std.specs.Fn.{FnOnceReturnsAtMut};
ghost use Rattle.meaning.specs.Refusal.{refused, sound};
ghost use Rattle.meaning.specs.Refusal as outcome;
ghost use Rattle.meaning.specs.Answer as meaning;
ghost use Rattle.meaning.specs.Rewriting as rewriting;
ghost use Rattle.answers.specs.Told.{number_of};
ghost use Rattle.answers.specs.declared.refusal.Refusal as refusal;
ghost use Rattle.starred.specs.Reading.{sevens, Writes};

use check::expect;
use zvonurel::{Fault, Format, Refusal, Report};

// A call that writes: into four sevens so many words, and these are what it leaves.
fn writes<F: FnOnce(&mut [u32]) -> Result<usize, Refusal>>(call: F, words: usize, after: &[u32])
    requires callable { F.IsAlwaysCallable call }
    requires told { (told : Result ℕ refusal.Refusal) (out : List ℕ)
        → FnOnceReturnsAtMut F.FnOnce call sevens told out → (told ≡ Ok words) × (out ≡ after.now) }
{
    let mut out = [7; 4];
    let told = call(&mut out[..]);
    expect(told == Ok(words));
    expect(out.as_slice() == after);
}

// Plain words that give a body.
pub fn compresses(format: Format, rows: u32, plain: &[u32], words: usize, after: &[u32])
    requires { Writes (meaning.compress format rows plain.now 4) words after.now }
{
    writes(
        |out| zvonurel::compress(format, rows, plain, out),
        words,
        after,
    );
}

// A sound body that gives plain words.
pub fn expands(format: Format, rows: u32, body: &[u32], words: usize, after: &[u32])
    requires { Writes (meaning.expand format rows body.now 4) words after.now }
{
    writes(
        |out| zvonurel::expand(format, body, rows, out),
        words,
        after,
    );
}

// A body written anew.
pub fn rewrites(from: Format, to: Format, rows: u32, body: &[u32], words: usize, after: &[u32])
    requires { Writes (rewriting.rewrite from to rows body.now 4) words after.now }
{
    writes(
        |out| zvonurel::rewrite(from, to, body, rows, out),
        words,
        after,
    );
}

// A body that is refused.
pub fn faulty(format: Format, body: &[u32], rows: u32, fault: Fault, word: u64)
    requires { meaning.check_body format rows body.now ≡ refused (number_of fault) 0 word }
{
    let refusal = Refusal {
        fault,
        bitmap: 0,
        word,
    };
    expect(zvonurel::check_body(format, body, rows) == Err(refusal));
}

// A sound index.
pub fn sound(index: &[u32])
    requires { meaning.check index.now ≡ outcome.sound }
{
    expect(zvonurel::check(index) == Ok(()));
}

// The part of an index that is a bitmap's body: no words where it is refused.
pub fn bitmap(index: &[u32], k: u32, part: &[u32])
    requires { meaning.part_of (meaning.bitmap index.now k) ≡ part.now }
{
    expect(zvonurel::bitmap(index, k) == part);
}

// A threshold question, with its words and its stretches.
pub fn threshold(index: &[u32], list: &[u32], t: u32, words: usize, stretches: u32, after: &[u32])
    requires writes { Writes (meaning.threshold index.now list.now t 4) words after.now }
    requires t_value { meaning.stretches_reported index.now list.now
        (meaning.threshold index.now list.now t 4) ≡ stretches }
{
    let mut out = [7; 4];
    let told = zvonurel::threshold(index, list, t, &mut out);
    expect(told == Ok(Report { words, stretches }));
    expect(out.as_slice() == after);
}

// A threshold question that is refused: its buffer, whose words are these, stays as it was.
pub fn refuses(
    index: &[u32],
    list: &[u32],
    t: u32,
    out: &mut [u32],
    before: &[u32],
    fault: Fault,
    word: u64,
)
    requires out_value { out.old ≡ before.now }
    requires out_value_2 { meaning.threshold index.now list.now t (length out.old)
        ≡ refused (number_of fault) 0 word }
{
    let told = zvonurel::threshold(index, list, t, out);
    let refusal = Refusal {
        fault,
        bitmap: 0,
        word,
    };
    expect(told == Err(refusal));
    expect(&*out == before);
}

// A histogram.
pub fn histogram(index: &[u32], list: &[u32], entries: &[u32])
    requires { meaning.histogram index.now list.now ≡ outcome.answer entries.now }
{
    let counts = zvonurel::histogram(index, list).unwrap();
    expect(counts.as_slice() == entries);
}

// The logical questions.
pub fn and(index: &[u32], j: u32, k: u32, words: usize, after: &[u32])
    requires { Writes (meaning.and index.now j k 4) words after.now }
{
    writes(|out| zvonurel::and(index, j, k, out), words, after);
}

pub fn or(index: &[u32], j: u32, k: u32, words: usize, after: &[u32])
    requires { Writes (meaning.or index.now j k 4) words after.now }
{
    writes(|out| zvonurel::or(index, j, k, out), words, after);
}

pub fn xor(index: &[u32], j: u32, k: u32, words: usize, after: &[u32])
    requires { Writes (meaning.xor index.now j k 4) words after.now }
{
    writes(|out| zvonurel::xor(index, j, k, out), words, after);
}

pub fn and_not(index: &[u32], j: u32, k: u32, words: usize, after: &[u32])
    requires { Writes (meaning.and_not index.now j k 4) words after.now }
{
    writes(|out| zvonurel::and_not(index, j, k, out), words, after);
}

pub fn not(index: &[u32], k: u32, words: usize, after: &[u32])
    requires { Writes (meaning.not_of index.now k 4) words after.now }
{
    writes(|out| zvonurel::not(index, k, out), words, after);
}
