// The two parts of a cycle of the buffered crossbar, in place on lent queues (document 01, "One slot"). A switch has at most 16 ports: more
// are not looked at.
#![tactic(auto)]

ghost use Rattle.std.specs.Prelude.{◌≡◌, false, ℕ, ◌<◌, length, get_or};
ghost use Rattle.std.specs.List.{find};
ghost use Rattle.queues.specs.Queues.{place, waits, has_room};
ghost use Rattle.queues.specs.Ports.{ports_in, inputs_in};
ghost use Rattle.queues.specs.Found.{FoundBelow};
ghost use Rattle.queues.specs.Flow.{still};
ghost use Rattle.queues.specs.Crossbar.{crossing, input_part, output_part};
ghost use Rattle.queues.specs.Lent.{Left};
ghost use Rattle.crossbar.specs.Steps.{cross_step, outmove_step};

use queues::{Cycle, Kind, Slot, Went, place, ports_of};

// The lowest output whose input queue is not empty and whose crosspoint is not full.
fn crossing(slot: Slot, i: u32, inlen: &[u32], crosslen: &[u32]) -> Option<u32>
    ensures { FoundBelow (ports_in slot.entry) (crossing (ports_in slot.entry) slot.entry.crosscap.now (still inlen.now crosslen.now) i) result }
{
    if queues::row_empty(inlen, i) {
        return None;
    }
    (0..ports_of(slot.ports)).find(|j| {
        let k = place(i, *j);
        queues::waits(inlen, k) && queues::has_room(slot.crosscap, crosslen, k)
    })
}

// One packet of input i moves to its crosspoint, if one can.
fn cross(
    cycle: Cycle,
    i: u32,
    inlen: &mut [u32],
    crosslen: &mut [u32],
    log: &mut [u32],
    at: usize,
) -> Went
    ensures { Left (cross_step (ports_in cycle.entry.slot) cycle.entry.slot.crosscap.now (still inlen.old crosslen.old) cycle.entry.slot.number cycle.entry.number i) inlen.new crosslen.new log.old log.new at result }
{
    let Some(j) = crossing(cycle.slot, i, inlen, crosslen) else {
        return Went::none(at);
    };
    let event = cycle.event(Kind::Crossed, i, j);
    queues::shift(
        event,
        inlen,
        cycle.slot.crosscap,
        crosslen,
        place(i, j),
        log,
        at,
    )
}

// The input part: one packet of each input, in turn, moves to its crosspoint.
pub fn input_part(
    cycle: Cycle,
    inlen: &mut [u32],
    crosslen: &mut [u32],
    log: &mut [u32],
    at: usize,
) -> Went
    ensures { Left (input_part (ports_in cycle.entry.slot) (inputs_in cycle.entry.slot) cycle.entry.slot.crosscap.now inlen.old crosslen.old cycle.entry.slot.number cycle.entry.number) inlen.new crosslen.new log.old log.new at result }
{
    let mut done = Went::none(at);
    for &i in cycle.slot.inputs() {
        let one = cross(cycle, i, inlen, crosslen, log, done.at);
        done = done.then(one);
    }
    done
}

// A row of the crosspoints: each packet leaves a bit for its output.
fn add_row(row: &[u32], bits: &mut [u32; 16])
    requires { (length row.now ≡ 16) × (length bits.old ≡ 16) }
    ensures { (length bits.new ≡ 16) × ((j : ℕ) → j < 16 → get_or bits.new j 0 ≡ 0 → (get_or bits.old j 0 ≡ 0) × (get_or row.now j 0 ≡ 0)) }
{
    for (j, bit) in bits.iter_mut().enumerate() {
        *bit |= row[j];
    }
}

// For each output a number that is 0 only where no crosspoint has a packet for it. Only of 16 × 16 crosspoints; of others none is 0.
fn columns(crosslen: &[u32]) -> [u32; 16]
    ensures { (i j : ℕ) → j < 16 → get_or result j 0 ≡ 0 → waits crosslen.now (place i j) ≡ false }
{
    if crosslen.len() != 256 {
        return [1; 16];
    }
    let mut bits = [0; 16];
    for row in crosslen.chunks_exact(16) {
        add_row(row, &mut bits);
    }
    bits
}

// The first input in turn that has a packet for output j at its crosspoint.
fn outmover(inputs: &[u32], crosslen: &[u32], j: u32) -> Option<u32>
    ensures { result ≡ find (λ i. waits crosslen.now (place i j)) inputs.now }
{
    inputs
        .iter()
        .copied()
        .find(|i| queues::waits(crosslen, place(*i, j)))
}

// One packet moves to output j, unless it is full or no input has one for it.
fn outmove(
    cycle: Cycle,
    j: u32,
    crosslen: &mut [u32],
    outlen: &mut [u32],
    log: &mut [u32],
    at: usize,
) -> Went
    ensures { Left (outmove_step (inputs_in cycle.entry.slot) cycle.entry.slot.outcap.now (still crosslen.old outlen.old) cycle.entry.slot.number cycle.entry.number j) crosslen.new outlen.new log.old log.new at result }
{
    let outcap = cycle.slot.outcap;
    if !queues::has_room(outcap, outlen, j as usize) {
        return Went::none(at);
    }
    let Some(i) = outmover(cycle.slot.inputs(), crosslen, j) else {
        return Went::none(at);
    };
    let event = cycle.event(Kind::Outmoved, i, j);
    queues::shift(event, crosslen, outcap, outlen, j as usize, log, at)
}

// The output part: one packet for each output, ascending, moves out of the crosspoints. What no crosspoint holds at the start none holds
// later in the part, so such an output is passed over.
pub fn output_part(
    cycle: Cycle,
    crosslen: &mut [u32],
    outlen: &mut [u32],
    log: &mut [u32],
    at: usize,
) -> Went
    ensures { Left (output_part (ports_in cycle.entry.slot) (inputs_in cycle.entry.slot) cycle.entry.slot.outcap.now crosslen.old outlen.old cycle.entry.slot.number cycle.entry.number) crosslen.new outlen.new log.old log.new at result }
{
    let bits = columns(crosslen);
    let mut done = Went::none(at);
    for j in 0..ports_of(cycle.slot.ports) {
        if bits[j as usize] == 0 {
            continue;
        }
        let one = outmove(cycle, j, crosslen, outlen, log, done.at);
        done = done.then(one);
    }
    done
}
