// A slot's arrivals, in file order, in place on lent queues (document 01, "One slot").
ghost use Rattle.std.specs.Prelude.{◌≡◌, ◌≤◌, ◌<◌, ◌+◌, ◌*◌, ◌/◌, length, get_or};
ghost use Rattle.queues.specs.Slot.{arrival};
ghost use Rattle.run.specs.Taking.{takings, Taken};

use crate::Took;
use queues::{Event, Kind, Queues};

// One arrival: accepted if that input queue is not full, otherwise dropped.
fn take_one(q: &mut Queues, slot: u32, input: u8, output: u8, log: &mut [u32], at: usize) -> Took
    ensures { Taken (arrival q.old slot input output) q.new log.old log.new at result }
{
    let i = input as u32;
    let j = output as u32;
    let k = queues::place(i, j);
    let (kind, dropped) = if queues::has_room(&q.incap, &q.inlen, k) {
        queues::join(&q.incap, &mut q.inlen, k);
        (Kind::Accepted, 0)
    } else {
        (Kind::Dropped, 1)
    };
    let event = Event {
        kind,
        slot,
        cycle: 0,
        input: i,
        output: j,
    };
    Took {
        at: queues::emit(log, at, event.word()),
        dropped,
    }
}

// All arrivals of a part, two bytes each.
pub(crate) fn take_all(q: &mut Queues, slot: u32, part: &[u8], log: &mut [u32], at: usize) -> Took
    requires { length part.now ≤ 131072 }
    ensures { Taken (takings q.old slot part.now (length part.now / 2)) q.new log.old log.new at result }
{
    let mut took = Took { at, dropped: 0 };
    for pair in part.chunks_exact(2) {
        let one = take_one(q, slot, pair[0], pair[1], log, took.at);
        took.at = one.at;
        took.dropped += one.dropped;
    }
    took
}
