// The trace file (document 01, "The trace file"): the verdict on any slice of bytes, and questions about what it holds.
#![tactic(auto)]

mod numbers; // numbers.rt: 8, 16 and 32 bits out of a slice of bytes
mod tables; // tables.rt: the three tables at their places

ghost use Rattle.std.specs.Prelude.{◌≡◌};
ghost use Rattle.base.specs.Refusal.{judged};
ghost use Rattle.trace.specs.Reading.{header_of, capacity, slot_count, body_refusal, verdict};
ghost use Rattle.trace.specs.Slots.{arrival_of, before, part_from, slot_part, standing};

use base::{Refusal, unless};
use layout::{File, Header};
use tables::Placed;

// One arrival's ports.
#[derive(Clone, Copy, Debug, PartialEq, Eq)]
pub struct Ports {
    pub input: u8,
    pub output: u8,
}

// What stands at a slot of an accepted trace: arrivals to hand out, or no more slots.
#[derive(Clone, Copy, Debug, PartialEq, Eq)]
pub enum Standing {
    Arrivals,
    NoMore,
}

// The refusals 8 to 11, of a trace whose header's numbers are allowed.
fn body_refusal(trace: &[u8], file: File) -> Result<(), Refusal>
    ensures { result ≡ judged (body_refusal trace.now file.header) tt }
{
    let tables = Placed {
        trace,
        places: file.places,
    };
    unless(tables.right(), Refusal::Places)?;
    layout::tables_refusal(file, &tables)
}

// The header's numbers of an accepted trace, or the first refusal, 1 to 11.
pub fn examine(trace: &[u8]) -> Result<Header, Refusal>
    ensures { result ≡ verdict trace.now }
{
    unless(40 <= trace.len(), Refusal::FewerThan40Bytes)?;
    let file = File::of(numbers::header(trace))?;
    body_refusal(trace, file)?;
    Ok(file.header)
}

// The header's first six words, allowed or not.
pub fn head(trace: &[u8]) -> Header
    ensures { result ≡ header_of trace.now }
{
    numbers::header(trace)
}

// Entry k of the capacities. This question and the next three judge nothing: past a table's end they answer what stands there, and
// 0 past the slice's.
#[tactic(auto, unfolding(crate::specs::Reading::capacity))]
pub fn capacity(trace: &[u8], k: usize) -> u32
    ensures { result ≡ capacity trace.now k }
{
    numbers::entry(trace, numbers::word(trace, 24) as usize, k) as u32
}

// The arrival count of slot t.
#[tactic(auto, unfolding(crate::specs::Reading::slot_count))]
pub fn slot_count(trace: &[u8], t: usize) -> u32
    ensures { result ≡ slot_count trace.now t }
{
    numbers::entry(trace, numbers::word(trace, 28) as usize, t) as u32
}

// Arrival a.
#[tactic(auto, unfolding(crate::specs::Slots::arrival_of, crate::specs::Reading::port_byte))]
pub fn arrival(trace: &[u8], a: usize) -> Ports
    ensures { result ≡ arrival_of trace.now a }
{
    let p = numbers::place(numbers::word(trace, 32) as usize, a);
    Ports {
        input: numbers::byte(trace, p, 0),
        output: numbers::byte(trace, p, 1),
    }
}

// The bytes of slot t's arrivals, where `start` arrivals stand before it: a walk over all slots that hands on each start costs one
// pass over the counts.
pub fn part_from(trace: &[u8], t: usize, start: usize) -> &[u8]
    ensures { result.now ≡ part_from trace.now t start }
{
    let from = numbers::place(numbers::word(trace, 32) as usize, start).min(trace.len());
    let rest = &trace[from..];
    let length = 2 * slot_count(trace, t) as usize;
    &rest[..length.min(rest.len())]
}

// How many arrivals stand before slot t, of any trace: layout's sum is over tables that stand in their places. (Over `map` and `sum` the proof does not close.)
#[tactic(auto, using(base::proofs::Below::sum_none, base::proofs::Below::sum_more), unfolding(crate::specs::Slots::before, crate::specs::Reading::slot_count))]
fn arrivals_before(trace: &[u8], t: u16) -> usize
    ensures { result ≡ before trace.now t }
{
    let at = numbers::word(trace, 28) as usize;
    let mut sum: usize = 0;
    for slot in 0..t as usize {
        sum += numbers::entry(trace, at, slot) as usize;
    }
    sum
}

// What stands at slot t: whether there are arrivals to hand out, or the trace's refusal.
#[tactic(auto, unfolding(crate::specs::Slots::standing, crate::specs::Slots::standing_in))]
pub fn stands(trace: &[u8], t: usize) -> Result<Standing, Refusal>
    ensures { result ≡ standing trace.now t }
{
    let header = examine(trace)?;
    if t < header.slots as usize {
        Ok(Standing::Arrivals)
    } else {
        Ok(Standing::NoMore)
    }
}

// The bytes of slot t's arrivals, and none where the trace is refused or has no slot t.
#[tactic(auto, unfolding(crate::specs::Slots::slot_part, crate::specs::Slots::part_at), using(crate::proofs::SlotsLaws::stands_below, crate::proofs::SlotsLaws::slots_few))]
pub fn slot_part(trace: &[u8], t: usize) -> &[u8]
    ensures { result.now ≡ slot_part trace.now t }
{
    match stands(trace, t) {
        Ok(Standing::Arrivals) => part_from(trace, t, arrivals_before(trace, t as u16)),
        Ok(Standing::NoMore) | Err(_) => &[],
    }
}
