// The words of the input.
ghost use Rattle.std.specs.Prelude.{◌≡◌, ◌*◌, length};
ghost use Rattle.meaning.specs.Limits.{word_bytes};
ghost use Rattle.threshold.specs.Output.{words_of};

// The most bytes that are read as a question, the bytes of a word, and the words that such a question and its answer may have.
pub const MOST_BYTES: usize = 65536;

pub const WORD_BYTES: usize = 4;

pub const ANSWER_ROOM: usize = MOST_BYTES / WORD_BYTES;

// Bytes as words, the lowest byte of each first.
pub fn words(bytes: &[u8], out: &mut [u32])
    requires { length bytes.now ≡ word_bytes * length out.old }
    ensures { out.new ≡ words_of bytes.now }
{
    let (fours, _) = bytes.as_chunks::<WORD_BYTES>();
    for (i, &four) in fours.iter().enumerate() {
        out[i] = u32::from_le_bytes(four);
    }
}
