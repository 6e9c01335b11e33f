// Where the bodies of a new index lie, and its head and contents.
ghost use Rattle.std.specs.Prelude.{◌≡◌, ℕ, ◌+◌, ◌*◌, ◌≤◌, ◌<◌, length, get_or};
ghost use Rattle.meaning.specs.Limits.{most_segments, most_value_column, head_words, entry_words};
ghost use Rattle.new_index.specs.Writers.{writer_of};
ghost use Rattle.new_index.specs.Layouts.{StartsOf, Headed};

use ewah_write::writer::Writer;
use meaning::{ENTRY_WORDS, Format, HEAD_WORDS, MOST_STARTS};

// The starts of bodies one behind the other, the first at `from`, and the end of the last.
pub fn starts(writers: &[Writer], from: usize) -> [usize; MOST_STARTS]
    requires { (length writers.now ≤ most_value_column) × (from ≤ 2 * most_segments)
        × ((i : ℕ) → i < length writers.now → (writer_of writers.now i).used ≤ 2 * most_segments) }
    ensures { StartsOf writers.now (length writers.now) from result }
{
    let mut r: [usize; MOST_STARTS] = [from; MOST_STARTS];
    for i in 0..writers.len() {
        r[i + 1] = r[i] + writers[i].used;
    }
    r
}

// The head and the contents.
pub fn write_contents(format: Format, out: &mut [u32], rows: u32, starts: &[usize], count: usize)
    requires count_le_most_value_column { (count ≤ most_value_column) × (count < length starts.now)
        × (head_words + entry_words * count ≤ length out.old) }
    requires by_index { (i : ℕ) → i < count → (get_or starts.now i 0 ≤ get_or starts.now (i + 1) 0)
        × (get_or starts.now (i + 1) 0 < 4294967296) }
    ensures { Headed format out.old rows starts.now count out.new count }
{
    out[0] = u32::from(format);
    out[1] = rows;
    out[2] = count as u32;
    for i in 0..count {
        let from = starts[i];
        let end = starts[i + 1];
        let k = HEAD_WORDS + ENTRY_WORDS * i;
        out[k] = from as u32;
        out[k + 1] = (end - from) as u32;
    }
}
