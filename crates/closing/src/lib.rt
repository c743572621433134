// The rest of a slot after its arrivals, in place on lent queues: all cycles, then the sendings (document 01, "One slot").
#![tactic(auto)]

ghost use Rattle.std.specs.Prelude.{◌≡◌};
ghost use Rattle.queues.specs.declared.Queues.{Queues};
ghost use Rattle.queues.specs.Events.{happened};
ghost use Rattle.queues.specs.Slot.{cycle_of, cycles, sendings, free, closing};
ghost use Rattle.queues.specs.Ports.{ports_in, inputs_in};
ghost use Rattle.queues.specs.Lent.{Held, LeftAll};
ghost use Rattle.closing.specs.Sent.{Sent, unsent, send_step};

use queues::{Cycle, Event, Kind, Slot, Went};

// One cycle of a crossbar, or of a CIOQ switch.
fn one_cycle(
    cycle: Cycle,
    inlen: &mut [u32],
    outlen: &mut [u32],
    crosslen: &mut [u32],
    log: &mut [u32],
    at: usize,
) -> Went
    ensures { (q : Queues) → Held q cycle.entry.slot.outcap.now cycle.entry.slot.crosscap.now inlen.old outlen.old crosslen.old → LeftAll (cycle_of cycle.entry.slot.crossbar q (ports_in cycle.entry.slot) (inputs_in cycle.entry.slot) cycle.entry.slot.number cycle.entry.number) inlen.new outlen.new crosslen.new log.old log.new at result.at × (result.moved ≡ happened (cycle_of cycle.entry.slot.crossbar q (ports_in cycle.entry.slot) (inputs_in cycle.entry.slot) cycle.entry.slot.number cycle.entry.number).events) }
{
    if !cycle.slot.crossbar {
        return cioq::cycle(cycle, inlen, outlen, log, at);
    }
    let first = crossbar::input_part(cycle, inlen, crosslen, log, at);
    let second = crossbar::output_part(cycle, crosslen, outlen, log, first.at);
    first.then(second)
}

// As many cycles as the speedup. After a cycle in which nothing moved nothing would move, so the others are left out.
fn cycles(
    slot: Slot,
    inlen: &mut [u32],
    outlen: &mut [u32],
    crosslen: &mut [u32],
    log: &mut [u32],
    at: usize,
) -> usize
    ensures { (q : Queues) → Held q slot.entry.outcap.now slot.entry.crosscap.now inlen.old outlen.old crosslen.old → LeftAll (cycles slot.entry.crossbar q (ports_in slot.entry) (inputs_in slot.entry) slot.entry.number slot.entry.speedup) inlen.new outlen.new crosslen.new log.old log.new at result }
{
    let mut next = at;
    for number in 0..slot.speedup {
        let cycle = Cycle { slot, number };
        let one = one_cycle(cycle, inlen, outlen, crosslen, log, next);
        next = one.at;
        if !one.moved {
            return next;
        }
    }
    next
}

// Output j sends one packet, unless it is empty.
fn send(slot: u32, j: u32, outlen: &mut [u32], log: &mut [u32], at: usize) -> usize
    ensures { Sent (send_step (unsent outlen.old) slot j) outlen.new log.old log.new at result }
{
    if !queues::waits(outlen, j as usize) {
        return at;
    }
    queues::leave(outlen, j as usize);
    let event = Event {
        kind: Kind::Sent,
        slot,
        cycle: 0,
        input: 0,
        output: j,
    };
    queues::emit(log, at, event.word())
}

// The first n outputs send, ascending.
fn sendings(n: u32, slot: u32, outlen: &mut [u32], log: &mut [u32], at: usize) -> usize
    ensures { Sent (sendings free outlen.old slot n) outlen.new log.old log.new at result }
{
    let mut next = at;
    for j in 0..n {
        next = send(slot, j, outlen, log, next);
    }
    next
}

// All cycles of a slot, then the sendings, on lists of any length, as it is promised: not on a `Queues`.
pub fn close(
    slot: Slot,
    inlen: &mut [u32],
    outlen: &mut [u32],
    crosslen: &mut [u32],
    log: &mut [u32],
    at: usize,
) -> usize
    ensures { (q : Queues) → Held q slot.entry.outcap.now slot.entry.crosscap.now inlen.old outlen.old crosslen.old → LeftAll (closing slot.entry.crossbar q (ports_in slot.entry) (inputs_in slot.entry) slot.entry.speedup slot.entry.number) inlen.new outlen.new crosslen.new log.old log.new at result }
{
    let next = cycles(slot, inlen, outlen, crosslen, log, at);
    sendings(queues::ports_of(slot.ports), slot.number, outlen, log, next)
}
