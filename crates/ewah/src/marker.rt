// A marker word taken apart and built, by shifts and masks: bit 0, bits 1 to 16, bits 17 to 31; and the markers of a body.
ghost use Rattle.std.specs.Prelude.{◌≡◌, ◌<◌};
ghost use Rattle.meaning.specs.Segment.{fill};
ghost use Rattle.meaning.specs.Ewah.{marker, due_after};
ghost use Rattle.ewah.specs.Markers.{FieldsOf, InRange};

#[derive(Clone, Copy)]
pub struct Marker {
    pub value: u32,
    pub clean: u32,
    pub dirty: u32,
}

pub fn read(m: u32) -> Marker
    ensures { FieldsOf m result }
{
    Marker {
        value: m & 1,
        clean: (m >> 1) & 0xFFFF,
        dirty: m >> 17,
    }
}

pub fn word(m: Marker) -> u32
    requires { InRange m }
    ensures { result ≡ marker m.value m.clean m.dirty }
{
    m.value | (m.clean << 1) | (m.dirty << 17)
}

// The word of a clean segment.
pub fn segment(value: u32) -> u32
    requires { value < 2 }
    ensures { result ≡ fill 32 value }
{
    value * 0xFFFF_FFFF
}

// What is left of a body: its markers, each with the dirty words behind it. All words that a marker announces are there.
#[derive(Drop)]
pub struct Markers<'a> {
    pub rest: &'a [u32],
}

impl<'a> Markers<'a> {
    pub fn of(body: &'a [u32]) -> Markers<'a>
        ensures { result.rest.now ≡ body.now }
    {
        Markers { rest: body }
    }
}

impl<'a> Iterator for Markers<'a> {
    ghost use Rattle.std.specs.Prelude.{length};
    ghost use Rattle.std.specs.Iterator.{at_most};
    ghost use Rattle.ewah.specs.Taken.{TakesMarker};

    type Item = (Marker, &'a [u32]);

    ghost can_next = { λ s. due_after 0 s.rest.now ≡ 0 };

    ghost next_gives = { TakesMarker };

    ghost remaining = { λ s. at_most (length s.rest.now) };

    #[inline]
    fn next(&mut self) -> Option<(Marker, &'a [u32])> {
        let (word, behind) = self.rest.split_first()?;
        let m = read(*word);
        let (dirty, rest) = behind.split_at(m.dirty as usize);
        self.rest = rest;
        Some((m, dirty))
    }
}
