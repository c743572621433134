// The three tables of a trace, and where they have to stand.
ghost use Rattle.std.specs.Prelude.{◌≡◌, ◌+◌, ◌*◌};
ghost use Rattle.base.specs.Digits.{byte};
ghost use Rattle.trace.specs.Reading.{half, places_right};

use crate::numbers;
use layout::{Places, Tables};

// The tables of a trace, each at its place.
#[derive(Clone, Copy)]
pub(crate) struct Placed<'a> {
    pub(crate) trace: &'a [u8],
    pub(crate) places: Places,
}

impl Placed<'_> {
    // Whether the offsets and the total stand in the header as the counts make them, and the slice ends there.
    #[tactic(auto, unfolding(crate::specs::Reading::places_right))]
    pub(crate) fn right(&self) -> bool
        ensures { result ≡ places_right self.now.trace.now self.now.places }
    {
        numbers::word(self.trace, 24) == 40
            && numbers::word(self.trace, 28) as usize == self.places.counts
            && numbers::word(self.trace, 32) as usize == self.places.arrivals
            && numbers::word(self.trace, 36) as usize == self.places.total
            && self.trace.len() == self.places.total
    }
}

impl Tables for Placed<'_> {
    ghost capacities = { λ x k. half x.trace.now (40 + 2 * k) };

    ghost counts = { λ x t. half x.trace.now (x.places.counts + 2 * t) };

    ghost ports = { λ x b. byte x.trace.now (x.places.arrivals + b) };

    fn capacity(&self, k: usize) -> u16 {
        numbers::entry(self.trace, 40, k)
    }

    fn count(&self, t: usize) -> u16 {
        numbers::entry(self.trace, self.places.counts, t)
    }

    fn port(&self, b: usize) -> u8 {
        numbers::byte(self.trace, self.places.arrivals, b)
    }
}
