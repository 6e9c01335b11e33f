// A row: the walk goes from marker to marker up to its segment, and reads no dirty word but its own.
ghost use Rattle.std.specs.Prelude.{◌≡◌, ◌<◌, length};
ghost use Rattle.meaning.specs.Ewah.{segments, pieces, due_after};
ghost use Rattle.extent.specs.Place.{PlaceOf};

use ewah::marker::{self, Markers};
use extent::Place;

// Where segment s is written.
pub fn locate(body: &[u32], s: u32) -> Place
    requires { (due_after 0 body.now ≡ 0) × (s < length (segments body.now)) }
    ensures { PlaceOf (segments body.now) (pieces 0 body.now) s result }
{
    let mut ahead = s;
    for (m, words) in Markers::of(body) {
        if ahead < m.clean {
            let word = marker::segment(m.value);
            let from = s - ahead;
            return Place {
                word,
                from,
                size: m.clean,
            };
        }
        let behind = ahead - m.clean;
        if behind < m.dirty {
            let word = words[behind as usize];
            return Place {
                word,
                from: s,
                size: 1,
            };
        }
        ahead = behind - m.dirty;
    }
    unreachable!()
}
