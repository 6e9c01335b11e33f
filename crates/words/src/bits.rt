// The bits of a word, each a row: which are set, how many, and where.
ghost use Rattle.std.specs.Prelude.{ℕ, ◌≡◌, ◌-◌, ◌^◌, ◌≤◌, ◌<◌};
ghost use Rattle.meaning.specs.Rows.{count_below, nth_below};
ghost use Rattle.meaning.specs.Segment.{is_set};

// Whether bit j of a word is set: a mask of one bit.
pub fn has(x: u32, j: u32) -> bool
    requires { j < 32 }
    ensures { result ≡ is_set x j }
{
    x & (1 << j) != 0
}

// A word whose k lowest bits are set.
pub fn low_ones(k: u32) -> u32
    requires { k ≤ 32 }
    ensures { result ≡ 2 ^ k - 1 }
{
    if k == 32 {
        return 0xFFFF_FFFF;
    }
    (1 << k) - 1
}

// A word whose bits are all so.
pub fn filled(on: bool) -> u32
    ensures { (j : ℕ) → j < 32 → is_set result j ≡ on }
{
    if on { 0xFFFF_FFFF } else { 0 }
}

// How many bits of a word are set.
pub fn count(x: u32) -> u32
    ensures { result ≡ count_below 32 (is_set x) }
{
    u32::count_ones(x)
}

// The place of the set bit that has n set bits below it.
pub fn nth(x: u32, n: u32) -> u32
    requires { n < count_below 32 (is_set x) }
    ensures { (result ≡ nth_below 32 (is_set x) n) × (result < 32) }
{
    let mut passed = 0;
    for j in 0..32 {
        if has(x, j) {
            if passed == n {
                return j;
            }
            passed += 1;
        }
    }
    0
}
