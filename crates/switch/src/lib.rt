// The switch value (document 01, "One slot", "Counts and draining", refusal 13): a new switch, one arrival, closing a slot, draining.
#![tactic(auto)]

mod judge; // judge.rt: which switch values are allowed, refusal 13
mod make; // make.rt: the capacities of a new switch, out of a trace

ghost use Rattle.std.specs.Prelude.{◌≡◌, true, ◌+◌, ◌<◌, ◌≤◌, length, get_or, eqb, min};
ghost use Rattle.base.specs.Refusal.{unless, judged};
ghost use Rattle.layout.specs.Header.{has_crosspoints};
ghost use Rattle.queues.specs.Queues.{more, lengths};
ghost use Rattle.queues.specs.Turn.{turn};
ghost use Rattle.queues.specs.Slot.{closing};
ghost use Rattle.switch.specs.Switch.{held_in, held_out, held_cross, held_all, held};
ghost use Rattle.switch.specs.Allowed.{switch_allowed};
ghost use Rattle.switch.specs.Settling.{counted_within};
ghost use Rattle.switch.specs.Draining.{drain_refusal, drained, drain};
ghost use Rattle.switch.specs.Steps.{arrive_refusal, arrived, arrive, close_refusal, close_step, close};
ghost use Rattle.switch.specs.Making.{made};

use base::{Refusal, Refused, unless};
use queues::{Queues, Slot};

// A switch: the header's numbers, the slot number, the counts, and the queues. A value from outside may hold any numbers, a model's or an order's too: refusal 13
// judges them.
#[derive(Clone, Copy)]
pub struct Switch {
    pub model: u32,
    pub order: u32,
    pub ports: u32,
    pub speedup: u32,
    pub slot: u32,
    pub arrived: u32,
    pub dropped: u32,
    pub crossed: u32,
    pub outmoved: u32,
    pub sent: u32,
    pub queues: Queues,
}

// What became of an arrival.
#[derive(Clone, Copy, Debug, PartialEq, Eq)]
pub enum Taken {
    Accepted,
    Dropped,
}

#[derive(Clone, Copy)]
pub struct Arrived {
    pub taken: Taken,
    pub switch: Switch,
}

// How a drain ended: empty after so many quiet slots, or not empty after the limit. Neither is an error, so it is no Result.
#[derive(Clone, Copy, Debug, PartialEq, Eq)]
pub enum Drain {
    Empty(u32),
    NotEmpty(u32),
}

#[derive(Clone, Copy)]
pub struct Drained {
    pub drain: Drain,
    pub switch: Switch,
}

// What the three kinds of queues hold.
#[derive(Clone, Copy, Debug, PartialEq, Eq)]
pub struct Packets {
    pub inputs: u64,
    pub outputs: u64,
    pub crosspoints: u64,
}

impl Packets {
    // All of them.
    fn all(self) -> u64
        requires { (self.inputs < 281474976710656) × (self.outputs < 281474976710656) × (self.crosspoints < 281474976710656) }
        ensures { result ≡ self.inputs + self.outputs + self.crosspoints }
    {
        self.inputs + self.outputs + self.crosspoints
    }
}

// What queues hold that stay where they are: a copy of all is four kibibytes, and a drain would make one for each slot.
#[tactic(auto, unfolding(crate::specs::Switch::held_in, crate::specs::Switch::held_out, crate::specs::Switch::held_cross, crate::specs::Switch::packets))]
fn held_by(q: &Queues) -> Packets
    ensures inputs_value { (result.inputs ≡ held_in q.now) × (result.outputs ≡ held_out q.now) × (result.crosspoints ≡ held_cross q.now) }
    ensures inputs_bound { (result.inputs < 281474976710656) × (result.outputs < 281474976710656) × (result.crosspoints < 281474976710656) }
{
    Packets {
        inputs: queues::packets(&q.inlen, 256),
        outputs: queues::packets(&q.outlen, 16),
        crosspoints: queues::packets(&q.crosslen, 256),
    }
}

pub fn holds(q: Queues) -> Packets
    ensures inputs_value { (result.inputs ≡ held_in q) × (result.outputs ≡ held_out q) × (result.crosspoints ≡ held_cross q) }
    ensures inputs_bound { (result.inputs < 281474976710656) × (result.outputs < 281474976710656) × (result.crosspoints < 281474976710656) }
{
    held_by(&q)
}

// Refusal 13 of a switch value that is not allowed.
#[tactic(auto, unfolding(base::specs::Refusal::tested, base::specs::Refusal::judged, base::specs::Refusal::unless, base::specs::Refusal::numbered))]
pub fn refusal(s: Switch) -> Result<(), Refusal>
    ensures { result ≡ judged (unless (switch_allowed s) 13) tt }
{
    unless(judge::allowed(s), Refusal::SwitchValue)
}

// The queues with one packet more in the input queue at place k.
#[tactic(auto, using(queues::proofs::QueuesLaws::joins_room), unfolding(queues::specs::Queues::lengths))]
fn joined(q: Queues, k: usize) -> Queues
    requires { get_or q.inlen k 0 < get_or q.incap k 0 }
    ensures { result ≡ lengths q (more q.inlen k) q.outlen q.crosslen }
{
    let mut next = q;
    queues::join(&q.incap, &mut next.inlen, k);
    next
}

// A count in 32 bits: the greatest where it is more.
fn within(n: u64) -> u32
    ensures { result ≡ min n 4294967295 }
{
    u32::try_from(n).unwrap_or(u32::MAX)
}

impl Switch {
    // The refusals of an arrival: 13, 11, 14.
    fn arrive_refusal(self, input: u32, output: u32) -> Result<(), Refusal>
        ensures { result ≡ judged (arrive_refusal self input output) tt }
    {
        refusal(self)?;
        unless(
            input < self.ports && output < self.ports,
            Refusal::ArrivalPort,
        )?;
        unless(self.arrived < 4096, Refusal::AllArrived)
    }

    // One arrival that is not refused.
    #[tactic(auto, using(crate::proofs::StepsLaws::more_may_arrive, crate::proofs::StepsLaws::accepted_answer, crate::proofs::StepsLaws::dropped_answer, crate::proofs::AllowedLaws::sound), unfolding(queues::specs::Queues::place, queues::specs::Queues::has_room))]
    fn take(self, input: u32, output: u32) -> Arrived
        requires { arrive_refusal self input output ≡ 0 }
        ensures { result ≡ arrived self input output }
    {
        let k = queues::place(input, output);
        let arrived = self.arrived + 1;
        if queues::has_room(&self.queues.incap, &self.queues.inlen, k) {
            Arrived {
                taken: Taken::Accepted,
                switch: Switch {
                    arrived,
                    queues: joined(self.queues, k),
                    ..self
                },
            }
        } else {
            Arrived {
                taken: Taken::Dropped,
                switch: Switch {
                    arrived,
                    dropped: self.dropped + 1,
                    ..self
                },
            }
        }
    }

    // The queues after all cycles and the sendings of the slot. A run closes its slots on lent queues and with a log (run/src/slots.rt).
    fn queues_closed(&self) -> Queues
        requires few { self.now.ports ≤ 16 }
        requires long { length self.now.queues.incap ≡ 256 }
        ensures { result ≡ (closing (has_crosspoints self.now.model) self.now.queues self.now.ports (turn self.now.order self.now.ports self.now.slot) self.now.speedup self.now.slot).queues }
    {
        let slot = Slot {
            crossbar: self.model == 2,
            ports: self.ports,
            speedup: self.speedup,
            turn: &queues::turn(self.order, self.ports, self.slot),
            number: self.slot,
            outcap: &self.queues.outcap,
            crosscap: &self.queues.crosscap,
        };
        let mut next = self.queues;
        closing::close(
            slot,
            &mut next.inlen,
            &mut next.outlen,
            &mut next.crosslen,
            &mut [0; 1],
            0,
        );
        next
    }

    // The switch with these queues, at a slot number: what crossed, came out and was sent is found from what arrived, was dropped and is held.
    #[tactic(auto, unfolding(crate::specs::Switch::held_all))]
    pub fn settle(self, slot: u32, queues: Queues) -> Switch
        ensures { result ≡ counted_within self slot queues }
    {
        let held = held_by(&queues);
        let kept = self.arrived.saturating_sub(self.dropped) as u64;
        let sent = kept.saturating_sub(held.all());
        let outmoved = sent + held.outputs;
        Switch {
            slot,
            crossed: within(outmoved + held.crosspoints),
            outmoved: within(outmoved),
            sent: sent as u32,
            queues,
            ..self
        }
    }

    // One closing that is not refused.
    fn step(&self) -> Switch
        requires allowed { switch_allowed self.now ≡ true }
        requires long { (length self.now.queues.incap ≡ 256) × (length self.now.queues.outcap ≡ 16) × (length self.now.queues.crosscap ≡ 256) × (length self.now.queues.inlen ≡ 256) × (length self.now.queues.outlen ≡ 16) × (length self.now.queues.crosslen ≡ 256) }
        ensures { result ≡ close_step self.now }
    {
        self.settle(self.slot + 1, self.queues_closed())
    }

    // The refusals of a closing: 13, 15.
    fn close_refusal(self) -> Result<(), Refusal>
        ensures { result ≡ judged (close_refusal self) tt }
    {
        refusal(self)?;
        unless(self.slot < 8192, Refusal::LastSlot)
    }

    // The refusals of a drain: 13, 16, 15.
    fn drain_refusal(self, limit: u32) -> Result<(), Refusal>
        ensures { result ≡ judged (drain_refusal self limit) tt }
    {
        refusal(self)?;
        unless(limit <= 4096, Refusal::DrainLimit)?;
        unless(self.slot as u64 + limit as u64 <= 8192, Refusal::LastSlot)
    }

    // Whether nothing is held.
    #[tactic(auto, unfolding(crate::specs::Switch::held, crate::specs::Switch::held_all))]
    fn is_empty(&self) -> bool
        ensures { result ≡ eqb (held self.now) 0 }
    {
        held_by(&self.queues).all() == 0
    }

    // Closings until nothing is held, at most `limit` of them.
    fn quiet_slots(self, limit: u32) -> Drained
        requires { drain_refusal self limit ≡ 0 }
        ensures { result ≡ drained self limit }
    {
        let mut now = self;
        for n in 0..limit {
            if now.is_empty() {
                return Drained {
                    drain: Drain::Empty(n),
                    switch: now,
                };
            }
            now = now.step();
        }
        let drain = if now.is_empty() {
            Drain::Empty(limit)
        } else {
            Drain::NotEmpty(limit)
        };
        Drained { drain, switch: now }
    }

    // A new switch from a trace's header and capacities; a refusal hands back one with every number 0.
    pub fn new(trace: &[u8]) -> Result<Switch, Refused<Switch>>
        ensures { result ≡ made trace.now }
    {
        let header = trace::examine(trace).map_err(|refusal| refusal.with(make::nought()))?;
        Ok(make::fresh(trace, header))
    }

    // One arrival at an input for an output, in the switch's slot. Here and below a refusal hands the switch back as it came.
    pub fn arrive(self, input: u32, output: u32) -> Result<Arrived, Refused<Switch>>
        ensures { result ≡ arrive self input output }
    {
        self.arrive_refusal(input, output)
            .map_err(|refusal| refusal.with(self))?;
        Ok(self.take(input, output))
    }

    // All cycles, then sending; the slot number rises by one.
    pub fn close(self) -> Result<Switch, Refused<Switch>>
        ensures { result ≡ close self }
    {
        self.close_refusal().map_err(|refusal| refusal.with(self))?;
        Ok(self.step())
    }

    // Closes slots without arrivals until the switch is empty or the limit is reached.
    pub fn drain(self, limit: u32) -> Result<Drained, Refused<Switch>>
        ensures { result ≡ drain self limit }
    {
        self.drain_refusal(limit)
            .map_err(|refusal| refusal.with(self))?;
        Ok(self.quiet_slots(limit))
    }
}
