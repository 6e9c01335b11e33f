// The lines of an output: those that come first as types that print themselves, and the line of a row.
ghost use Rattle.std.specs.Prelude.{◌≡◌, ◌+◌, ◌≤◌, ◌++◌, Some};
ghost use Rattle.arrayvec.specs.ArrayString.{array_string_len};
ghost use Rattle.answers.specs.Told.{number_of};
ghost use Rattle.text.specs.Lines as ascii;

use answers::refusal::Refusal;
use arrayvec::ArrayString;
use std::fmt;

// The line of a refusal: its three numbers.
#[derive(Clone, Copy)]
pub struct RefusalLine(pub Refusal);

impl fmt::Display for RefusalLine {
    ghost output = { λ line. Some (ascii.refused_text (number_of line.0.fault) line.0.bitmap line.0.word) };

    fn fmt<W: fmt::Write>(&self, f: &mut fmt::Formatter<W>) -> fmt::Result {
        let number = self.0.number();
        let bitmap = self.0.bitmap;
        let word = self.0.word;
        write!(f, "refused {number} {bitmap} {word}\n")
    }
}

// The first four lines of an answer.
#[derive(Clone, Copy)]
pub struct Head {
    pub rows: u32,
    pub named: u32,
    pub t: u32,
    pub set: u32,
}

impl fmt::Display for Head {
    ghost output = { λ h. Some (ascii.head_text h.rows h.named h.t h.set) };

    fn fmt<W: fmt::Write>(&self, f: &mut fmt::Formatter<W>) -> fmt::Result {
        let rows = self.rows;
        let named = self.named;
        let t = self.t;
        let set = self.set;
        write!(f, "rows {rows}\nnamed {named}\nthreshold {t}\nset {set}\n")
    }
}

// The most bytes of a row's line.
pub const LINE_BYTES: usize = 11;

// Appends the line of a row.
pub fn push<const N: usize>(out: &mut ArrayString<N>, row: u32)
    requires { array_string_len out.old + 11 ≤ N }
    ensures { out.new.bytes ≡ out.old.bytes ++ ascii.line row }
{
    let mut digits = itoa::Buffer::new();
    out.push_str(digits.format(row));
    out.push('\n');
}
