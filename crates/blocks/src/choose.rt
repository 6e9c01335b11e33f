// How many segments come next, and whether as a run: where the nearest end of a piece is a block or more on, the segments up to the
// nearest end are alike in every place, and one word for each says them all.
ghost use Rattle.std.specs.Prelude.{true, ◌≡◌, ◌≤◌, ◌<◌};
ghost use Rattle.meaning.specs.Limits.{block_segments};
ghost use Rattle.blocks.specs.Blocks.{Chosen};

use meaning::BLOCK_SEGMENTS;

// So many segments, and whether all of them are alike in every place.
#[derive(Clone, Copy)]
pub struct Step {
    pub n: u32,
    pub even: bool,
}

// Whether a run comes next: no piece ends before a block does, and several segments are ahead. A lone one is a block of one.
fn is_run(near: u32, ahead: u32) -> bool
    ensures { result ≡ true → (block_segments ≤ near) × (2 ≤ ahead) }
{
    BLOCK_SEGMENTS <= contents::wide(near) && 2 <= ahead
}

// The next segments from segment o on, up to `end` at most, where the nearest end of a piece is `near` segments on. Behind a run
// comes one segment alone: often the next run begins behind it, and a block would cut that.
pub fn choose(near: u32, o: u32, end: u32, behind_run: bool) -> Step
    requires { o < end }
    ensures { Chosen near end o result.n result.even }
{
    let ahead = end - o;
    if is_run(near, ahead) {
        return Step {
            n: near.min(ahead),
            even: true,
        };
    }
    if behind_run {
        return Step { n: 1, even: false };
    }
    Step {
        n: ahead.min(BLOCK_SEGMENTS as u32),
        even: false,
    }
}
