// One cycle of the CIOQ switch, greedy matching, in place on lent queues (document 01, "One slot").
#![tactic(auto)]

ghost use Rattle.std.specs.Prelude.{◌≡◌, ◌<◌, ℕ, get_or};
ghost use Rattle.queues.specs.Queues.{place};
ghost use Rattle.queues.specs.Cioq.{matching};
ghost use Rattle.queues.specs.Ports.{ports_in, inputs_in};
ghost use Rattle.queues.specs.Found.{FoundBelow};
ghost use Rattle.queues.specs.Lent.{Left};
ghost use Rattle.cioq.specs.Visit.{may_take, chosen, VisitedTo};

use queues::{Cycle, Kind, Slot, Went, place, ports_of};
use std::array;

// The queues of input i, out of the list in one go: a search that looks up each of them there would test each one's place.
#[tactic(auto, unfolding(queues::specs::Queues::place))]
fn row(inlen: &[u32], i: u32) -> [u32; 16]
    ensures { (j : ℕ) → j < 16 → get_or result j 0 ≡ get_or inlen.now (place i j) 0 }
{
    let first = place(i, 0);
    match inlen.get(first..first + 16) {
        Some(part) => {
            let mut row = [0; 16];
            row.copy_from_slice(part);
            row
        }
        None => array::from_fn(|j| queues::number_at(inlen, first + j)),
    }
}

// Whether an input may take output j now, by its own queues: a packet waits, no earlier input took the output, and there is room for it. (The definition looks at the queues of
// all inputs: its own alone are those of input 0. The flag is asked before the room: the room's place would be tested for every queue, empty ones too.)
#[tactic(auto, unfolding(crate::specs::Visit::may_take, queues::specs::Cioq::eligible, queues::specs::Queues::waits, queues::specs::Queues::place))]
fn may_take(row: &[u32; 16], j: u32, outcap: &[u32], outlen: &[u32], taken: &[bool; 16]) -> bool
    requires { j < 16 }
    ensures { result ≡ may_take outcap.now row.now outlen.now taken.now 0 j }
{
    0 < row[j as usize] && !taken[j as usize] && queues::has_room(outcap, outlen, j as usize)
}

// The lowest output that input i may take now.
fn pick(slot: Slot, i: u32, inlen: &[u32], outlen: &[u32], taken: &[bool; 16]) -> Option<u32>
    ensures { FoundBelow (ports_in slot.entry) (chosen (ports_in slot.entry) slot.entry.outcap.now inlen.now outlen.now taken.now i) result }
{
    if queues::row_empty(inlen, i) {
        return None;
    }
    let row = row(inlen, i);
    (0..ports_of(slot.ports)).find(|j| may_take(&row, *j, slot.outcap, outlen, taken))
}

// The visit of input i: one of its packets moves if there is an output that it may take, which is then taken.
fn visit(
    cycle: Cycle,
    i: u32,
    inlen: &mut [u32],
    outlen: &mut [u32],
    taken: &mut [bool; 16],
    log: &mut [u32],
    went: Went,
) -> Went
    ensures { VisitedTo (ports_in cycle.entry.slot) (chosen (ports_in cycle.entry.slot) cycle.entry.slot.outcap.now inlen.old outlen.old taken.old i) cycle.entry.slot.number cycle.entry.number i inlen.old outlen.old taken.old log.old went inlen.new outlen.new taken.new log.new result }
{
    let Some(j) = pick(cycle.slot, i, inlen, outlen, taken) else {
        return went;
    };
    taken[j as usize] = true;
    let event = cycle.event(Kind::Crossed, i, j);
    queues::shift(
        event,
        inlen,
        cycle.slot.outcap,
        outlen,
        j as usize,
        log,
        went.at,
    )
}

// A cycle of a slot: the inputs are visited in turn, and each moves one packet to the lowest eligible output that no earlier one took. A
// switch has at most 16 ports: more are not looked at.
pub fn cycle(
    cycle: Cycle,
    inlen: &mut [u32],
    outlen: &mut [u32],
    log: &mut [u32],
    at: usize,
) -> Went
    ensures { Left (matching (ports_in cycle.entry.slot) (inputs_in cycle.entry.slot) cycle.entry.slot.outcap.now inlen.old outlen.old cycle.entry.slot.number cycle.entry.number) inlen.new outlen.new log.old log.new at result }
{
    let mut taken = [false; 16];
    let mut went = Went::none(at);
    for &i in cycle.slot.inputs() {
        went = visit(cycle, i, inlen, outlen, &mut taken, log, went);
    }
    went
}
