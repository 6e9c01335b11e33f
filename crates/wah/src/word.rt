// A word of a WAH body taken apart and built, by shifts and masks: bit 31 says that it is a fill, which has its value
// in bit 30 and its count of segments in the bits below.
ghost use Rattle.std.specs.Prelude.{◌≡◌, ◌≤◌, ◌<◌};
ghost use Rattle.meaning.specs.Limits.{most_fill};
ghost use Rattle.meaning.specs.Segment.{fill};
ghost use Rattle.meaning.specs.Piece.{piece_size};
ghost use Rattle.meaning.specs.Wah.{is_fill, fill_word, piece_of};
ghost use Rattle.wah.specs.Words.{FieldsOf};

#[derive(Clone, Copy)]
pub struct Fill {
    pub value: u32,
    pub count: u32,
}

// Whether a word is a fill, and not a literal.
// Kept: with read(x) as an Option<Fill> LLVM selects where it branches on is_fill: `locate` took 5.3 µs for 2.7 to 4.0, over 4096 words.
pub fn is_fill(x: u32) -> bool
    ensures { result ≡ is_fill x }
{
    x >> 31 != 0
}

// The fields of a fill.
pub fn read(x: u32) -> Fill
    ensures { FieldsOf x result }
{
    Fill {
        value: (x >> 30) & 1,
        count: x & 0x3FFF_FFFF,
    }
}

// The word of a clean segment.
pub fn segment(value: u32) -> u32
    requires { value < 2 }
    ensures { result ≡ fill 31 value }
{
    value * 0x7FFF_FFFF
}

// How many segments a word spells.
pub fn size(x: u32) -> u32
    ensures { result ≡ piece_size (piece_of x) }
{
    if is_fill(x) { read(x).count } else { 1 }
}

// The fill of so many clean segments.
pub fn fill_word(value: u32, count: u32) -> u32
    requires { (value < 2) × (count ≤ most_fill) }
    ensures { result ≡ fill_word value count }
{
    0x8000_0000 | (value << 30) | count
}
