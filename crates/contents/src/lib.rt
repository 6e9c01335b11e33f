// The contents of an index: its format, its rows, its number of bitmaps, and where each body lies.
// Calls here have a `requires`; the check of `index`, and behind it the public calls, meet it.
#![tactic(auto)]

ghost use Rattle.std.specs.Prelude.{◌≡◌, ◌+◌, ◌*◌, ◌≤◌, ◌<◌, length};
ghost use Rattle.meaning.specs.Limits.{most_bitmaps, head_words, most_contents, word_bytes};
ghost use Rattle.meaning.specs.Format.{kind_of};
ghost use Rattle.meaning.specs.Index.{format_of, row_count, bitmap_count, entry_place, start_of, length_of, body_at};
ghost use Rattle.laws.specs.Laws.{HeadFacts, EntryFacts};
ghost use Rattle.meaning.specs.NewIndex.{index_room};

use meaning::{ENTRY_WORDS, Format, HEAD_WORDS, MOST_INDEX_WORDS};

// A word as a number of words.
pub fn wide(x: u32) -> usize
    ensures { (result ≡ x) × (result < 4294967296) }
{
    x as usize
}

// The format of the bodies.
pub fn format(index: &[u32]) -> Format
    requires { head_words ≤ length index.now }
    ensures { result ≡ format_of index.now }
{
    Format::try_from(index[0]).unwrap_or(Format::Ewah)
}

// What word 0 states of an index with bodies of a format.
pub fn kind(format: Format) -> u32
    ensures { result ≡ kind_of format }
{
    u32::from(format)
}

// Of a buffer of so many words those that a new index can take.
#[tactic(auto, unfolding(meaning::specs::NewIndex::index_room))]
pub fn room(words: usize) -> usize
    ensures { result ≡ index_room words }
{
    words.min(MOST_INDEX_WORDS)
}

// How many rows each bitmap has.
#[tactic(auto, unfolding(meaning::specs::Index::row_count))]
pub fn rows(index: &[u32]) -> u32
    requires { head_words ≤ length index.now }
    ensures { result ≡ row_count index.now }
{
    index[1]
}

// How many bitmaps there are.
#[tactic(auto, unfolding(meaning::specs::Index::bitmap_count))]
pub fn bitmaps(index: &[u32]) -> u32
    requires { head_words ≤ length index.now }
    ensures { result ≡ bitmap_count index.now }
{
    index[2]
}

// Where entry k stands.
#[tactic(auto, unfolding(meaning::specs::Index::entry_place))]
pub fn entry_place(index: &[u32], k: u32) -> usize
    requires { k ≤ most_bitmaps }
    ensures { (result ≡ entry_place index.now k) × (result ≤ most_contents) }
{
    HEAD_WORDS + ENTRY_WORDS * wide(k)
}

// Where body k starts, as its entry says.
pub fn start(index: &[u32], k: u32) -> usize
    requires head_facts { HeadFacts index.now }
    requires k_bound { k < bitmap_count index.now }
    ensures { (result ≡ start_of index.now k) × (result < 4294967296) }
{
    let place = entry_place(index, k);
    wide(index[place])
}

// How many words body k has, as its entry says.
pub fn words(index: &[u32], k: u32) -> usize
    requires head_facts { HeadFacts index.now }
    requires k_bound { k < bitmap_count index.now }
    ensures { (result ≡ length_of index.now k) × (result < 4294967296) }
{
    let place = entry_place(index, k) + 1;
    wide(index[place])
}

// The part that is bitmap k's body: its words, and where they lie in memory, in the index's own block and behind its first byte.
pub fn body(index: &[u32], k: u32) -> &[u32]
    requires head_facts { HeadFacts index.now }
    requires entry_facts { EntryFacts index.now }
    requires k_bound { k < bitmap_count index.now }
    ensures result_value { result.now ≡ body_at index.now k }
    ensures ref_ptr_value { result.ref_ptr.0 ≡ index.entry.ref_ptr.0 }
    ensures ref_ptr_value_2 { result.ref_ptr.1 ≡ index.entry.ref_ptr.1 + word_bytes * start_of index.now k }
{
    let from = start(index, k);
    let end = from + words(index, k);
    &index[from..end]
}
