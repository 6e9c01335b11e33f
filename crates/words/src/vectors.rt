// Vectors: N words in a local array, at which nothing else points, so that the machine works on many words at once.
ghost use Rattle.std.specs.Prelude.{◌≡◌, ◌+◌, ◌≤◌, length};
ghost use Rattle.words.specs.Sums.{PartOf, Added};

// The N words from `at` on.
pub fn part<const N: usize>(ws: &[u32], at: usize) -> [u32; N]
    requires { at + N ≤ length ws.now }
    ensures { PartOf N ws.now at result }
{
    let mut r = [0; N];
    r.copy_from_slice(&ws[at..at + N]);
    r
}

// At each bit the sum of three, as two digits.
#[derive(Clone, Copy)]
pub struct Sums<const N: usize> {
    pub digits: [u32; N],
    pub carries: [u32; N],
}

// A carry-save adder: a full adder for each bit.
pub fn add<const N: usize>(a: [u32; N], b: [u32; N], c: [u32; N]) -> Sums<N>
    ensures { Added N a.entry b.entry c.entry result.digits result.carries }
{
    let mut digits = [0; N];
    let mut carries = [0; N];
    for w in 0..N {
        let odd = a[w] ^ b[w];
        digits[w] = odd ^ c[w];
        carries[w] = (a[w] & b[w]) | (odd & c[w]);
    }
    Sums { digits, carries }
}
