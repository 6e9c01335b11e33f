// A row: the walk goes from word to word up to its segment.
ghost use Rattle.std.specs.Prelude.{◌≡◌, ◌<◌, length};
ghost use Rattle.meaning.specs.Wah.{wah_segments, wah_pieces};
ghost use Rattle.extent.specs.Place.{PlaceOf};

use extent::Place;
use wah::word;

// Where segment s is written.
pub fn locate(body: &[u32], s: u32) -> Place
    requires { s < length (wah_segments body.now) }
    ensures { PlaceOf (wah_segments body.now) (wah_pieces body.now) s result }
{
    let mut ahead = s;
    for &x in body {
        if word::is_fill(x) {
            let fill = word::read(x);
            if ahead < fill.count {
                let word = word::segment(fill.value);
                let from = s - ahead;
                let size = fill.count;
                return Place { word, from, size };
            }
            ahead -= fill.count;
        } else {
            if ahead == 0 {
                return Place {
                    word: x,
                    from: s,
                    size: 1,
                };
            }
            ahead -= 1;
        }
    }
    unreachable!()
}
