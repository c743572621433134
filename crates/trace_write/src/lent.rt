// What is lent to the writer: judged, and written.
ghost use Rattle.std.specs.Prelude.{◌≡◌, ◌+◌, ◌*◌, ◌≤◌, length, get_or};
ghost use Rattle.base.specs.Refusal.{judged};
ghost use Rattle.trace_write.specs.Writing.{lengths_right, body_refusal, header_words, file, out_of};

use crate::put;
use base::{Refusal, unless};
use layout::{File, Tables};

// The file of an allowed header, and the three tables as they are lent.
#[derive(Clone, Copy)]
pub(crate) struct Lent<'a> {
    pub file: File,
    pub capacities: &'a [u16],
    pub counts: &'a [u16],
    pub ports: &'a [u8],
}

impl Tables for Lent<'_> {
    ghost capacities = { λ lent k. get_or lent.capacities.now k 0 };

    ghost counts = { λ lent t. get_or lent.counts.now t 0 };

    ghost ports = { λ lent b. get_or lent.ports.now b 0 };

    fn capacity(&self, k: usize) -> u16 {
        self.capacities.get(k).copied().unwrap_or(0)
    }

    fn count(&self, t: usize) -> u16 {
        self.counts.get(t).copied().unwrap_or(0)
    }

    fn port(&self, b: usize) -> u8 {
        self.ports.get(b).copied().unwrap_or(0)
    }
}

impl Lent<'_> {
    // Whether each table is as long as the header makes it.
    #[tactic(auto, using(crate::proofs::WritingLaws::capacities_counted), unfolding(crate::specs::Writing::lengths_right))]
    fn lengths_right(&self) -> bool
        ensures { result ≡ lengths_right self.now.file.header self.now.capacities.now self.now.counts.now self.now.ports.now }
    {
        self.capacities.len() == self.file.places.capacities
            && self.counts.len() == self.file.header.slots as usize
            && self.ports.len() == 2 * (self.file.header.arrivals as usize)
    }

    // The refusals 17, 9, 10, 11, 18, of a header whose numbers are allowed.
    pub(crate) fn refusal(&self, room: usize) -> Result<(), Refusal>
        ensures { result ≡ judged (body_refusal self.now.file.header self.now.capacities.now self.now.counts.now self.now.ports.now room) tt }
    {
        unless(self.lengths_right(), Refusal::TableLength)?;
        layout::tables_refusal(self.file, self)?;
        unless(self.file.places.total <= room, Refusal::ShortOutput)
    }

    // The header's ten words: its six numbers, the three offsets and the total.
    #[tactic(auto, using(crate::proofs::WritingLaws::words_placed))]
    fn words(&self) -> [u32; 10]
        ensures { result ≡ header_words self.now.file.header }
    {
        let (h, p) = (self.file.header, self.file.places);
        [
            h.model,
            h.order,
            h.ports,
            h.speedup,
            h.slots,
            h.arrivals,
            40,
            p.counts as u32,
            p.arrivals as u32,
            p.total as u32,
        ]
    }

    // The whole file, from the output's first byte on.
    pub(crate) fn fill(&self, out: &mut [u8])
        requires capacities { 40 + 2 * length self.now.capacities.now ≡ self.now.file.places.counts }
        requires counts { self.now.file.places.counts + 2 * length self.now.counts.now ≡ self.now.file.places.arrivals }
        requires ports { self.now.file.places.arrivals + length self.now.ports.now ≡ self.now.file.places.total }
        requires room { self.now.file.places.total ≤ length out.old }
        ensures { out.new ≡ out_of 0 (file self.now.file.header self.now.capacities.now self.now.counts.now self.now.ports.now) out.old }
    {
        let p = self.file.places;
        put::table(&mut out[..40], &self.words());
        put::table(&mut out[40..p.counts], self.capacities);
        put::table(&mut out[p.counts..p.arrivals], self.counts);
        put::bytes(&mut out[p.arrivals..p.total], self.ports);
    }
}
