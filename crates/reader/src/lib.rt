// The reader (document 01): it stands on the lent trace, remembers its slot, and hands out the arrivals of one slot after another.
#![tactic(auto)]

ghost use Rattle.std.specs.Prelude.{◌≡◌};
ghost use Rattle.trace.specs.Slots.{slot_part, standing};
ghost use Rattle.reader.specs.Requests.{part_of, standing_of, slot_after, Answered};

use base::Refusal;
use trace::Standing;

#[derive(Clone, Copy, Debug)]
pub struct Reader<'a> {
    pub trace: &'a [u8],
    pub slot: usize,
}

impl<'a> Reader<'a> {
    // A reader at the first slot.
    pub fn new(trace: &'a [u8]) -> Reader<'a>
        ensures { (result.trace ≡ trace.entry) × (result.slot ≡ 0) }
    {
        Reader { trace, slot: 0 }
    }

    // A request: the bytes of the slot's arrivals, after which the reader goes on; no more; or the trace's refusal. The last two leave it as it is.
    #[tactic(auto, unfolding(crate::specs::Requests::part_of, crate::specs::Requests::standing_of, crate::specs::Requests::slot_after, crate::specs::Requests::slot_from, trace::specs::Slots::slot_part, trace::specs::Slots::part_at), using(trace::proofs::SlotsLaws::stands_below, trace::proofs::SlotsLaws::slots_few))]
    pub fn next(&mut self) -> Result<Option<&'a [u8]>, Refusal>
        ensures { Answered self.old self.new result }
    {
        match trace::stands(self.trace, self.slot)? {
            Standing::NoMore => Ok(None),
            Standing::Arrivals => {
                let part = trace::slot_part(self.trace, self.slot);
                self.slot += 1;
                Ok(Some(part))
            }
        }
    }
}

// What the second request to a new reader is answered with.
#[tactic(auto, unfolding(crate::specs::Requests::part_of, crate::specs::Requests::standing_of, crate::specs::Requests::slot_after, crate::specs::Requests::slot_from, trace::specs::Slots::slot_part, trace::specs::Slots::part_at))]
pub fn second(trace: &[u8]) -> Result<Option<&[u8]>, Refusal>
    ensures stood { standing_of result ≡ standing trace.now (slot_after trace.now 0) }
    ensures part { part_of result ≡ slot_part trace.now (slot_after trace.now 0) }
{
    let mut reader = Reader::new(trace);
    reader.next()?;
    reader.next()
}
