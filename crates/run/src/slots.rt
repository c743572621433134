// All slots of an accepted trace, in place: no switch is copied for an event.
ghost use Rattle.std.specs.Prelude.{◌≡◌, ◌≤◌, ◌/◌, length};
ghost use Rattle.layout.specs.Header.{has_crosspoints};
ghost use Rattle.trace.specs.Reading.{header_of, reading};
ghost use Rattle.queues.specs.Events.{log_of};
ghost use Rattle.queues.specs.Log.{logged, onward};
ghost use Rattle.queues.specs.Turn.{turn, turn_places};
ghost use Rattle.switch.specs.Making.{fresh};
ghost use Rattle.run.specs.Run.{whole};
ghost use Rattle.run.specs.Taking.{slot_of, Taken};

use crate::{Took, taking};
use layout::Header;
use queues::{Queues, Slot};

// The queues at the end of a trace, how many arrivals were dropped, and how many words of the log are filled.
#[derive(Clone, Copy)]
pub(crate) struct Ended {
    pub queues: Queues,
    pub dropped: u32,
    pub words: usize,
}

// One slot: the arrivals of its part of the trace, then the closing, with the inputs in turn.
fn one_slot(
    q: &mut Queues,
    header: Header,
    slot: u32,
    inputs: &[u32; 16],
    part: &[u8],
    log: &mut [u32],
    at: usize,
) -> Took
    requires { (length part.now ≤ 131072) × (header.ports ≤ 16) × (inputs.now ≡ turn_places header.order header.ports slot) }
    ensures { Taken (slot_of (has_crosspoints header.model) q.old header.ports (turn header.order header.ports slot) header.speedup slot part.now) q.new log.old log.new at result }
{
    let took = taking::take_all(q, slot, part, log, at);
    let closed = Slot {
        crossbar: header.model == 2,
        ports: header.ports,
        speedup: header.speedup,
        turn: inputs,
        number: slot,
        outcap: &q.outcap,
        crosscap: &q.crosscap,
    };
    let next = closing::close(
        closed,
        &mut q.inlen,
        &mut q.outlen,
        &mut q.crosslen,
        log,
        took.at,
    );
    Took {
        at: next,
        dropped: took.dropped,
    }
}

// All slots, on the queues of a new switch.
pub(crate) fn all_slots(trace: &[u8], header: Header, new: Queues, log: &mut [u32]) -> Ended
    requires { (reading trace.now ≡ 0) × (header ≡ header_of trace.now) × (new ≡ (fresh trace.now).queues) }
    ensures { (result.queues ≡ (whole trace.now).switch.queues) × (result.dropped ≡ (whole trace.now).switch.dropped) × (log.new ≡ logged log.old 0 (log_of (whole trace.now).events)) × (result.words ≡ onward (length log.old) 0 (length (whole trace.now).events)) }
{
    let mut end = Ended {
        queues: new,
        dropped: 0,
        words: 0,
    };
    let mut start: usize = 0;
    for t in 0..header.slots {
        let part = trace::part_from(trace, t as usize, start);
        let inputs = queues::turn(header.order, header.ports, t);
        let took = one_slot(&mut end.queues, header, t, &inputs, part, log, end.words);
        end.words = took.at;
        end.dropped += took.dropped;
        start += part.len() / 2;
    }
    end
}
