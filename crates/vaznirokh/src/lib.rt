// The library: the bench model on numbers and lent runs of them, for programs in other languages (the crate vaznirokh_c exports it; include/vaznirokh.h). Each
// function answers 0 or a refusal's number; a lent run of the wrong length gets 30, before anything else, and after a refusal nothing that
// was lent is changed.
#![tactic(auto)]

mod answers; // answers.rt: answers as numbers
mod lent; // lent.rt: the work on lent runs

ghost use Rattle.std.specs.Prelude.{◌≡◌};
ghost use Rattle.vaznirokh.specs.Library.{vaz_examine, vaz_run, vaz_run_log, vaz_run_counts, vaz_write, vaz_write_out};
ghost use Rattle.vaznirokh.specs.Library.{vaz_new, vaz_new_state, vaz_arrive, vaz_arrive_state, vaz_arrive_answer, vaz_close, vaz_close_state};
ghost use Rattle.vaznirokh.specs.Library.{vaz_drain, vaz_drain_state, vaz_drain_answer};

use base::refusal_of;

// The verdict on a trace: 0, or 1 to 11.
#[tactic(auto, unfolding(crate::specs::Library::vaz_examine))]
pub fn vaz_examine(trace: &[u8]) -> u32
    ensures { result ≡ vaz_examine trace.now }
{
    refusal_of(trace::examine(trace))
}

// A whole trace: its log, and the six counts arrived, dropped, crossed, outmoved, sent and held.
pub fn vaz_run(trace: &[u8], log: &mut [u32], counts: &mut [u32]) -> u32
    ensures value { result ≡ vaz_run trace.now log.old counts.old }
    ensures log_after { log.new ≡ vaz_run_log trace.now log.old counts.old }
    ensures counts_after { counts.new ≡ vaz_run_counts trace.now log.old counts.old }
{
    refusal_of(lent::run(trace, log, counts))
}

// A trace from the header's first six words and three tables, into a lent output.
pub fn vaz_write(
    header: &[u32],
    capacities: &[u16],
    slot_counts: &[u16],
    arrivals: &[u8],
    out: &mut [u8],
) -> u32
    ensures value { result ≡ vaz_write header.now capacities.now slot_counts.now arrivals.now out.old }
    ensures out_after { out.new ≡ vaz_write_out header.now capacities.now slot_counts.now arrivals.now out.old }
{
    refusal_of(lent::write(header, capacities, slot_counts, arrivals, out))
}

// A new switch from a trace's header and capacities, into 1,066 lent words.
pub fn vaz_new(trace: &[u8], state: &mut [u32]) -> u32
    ensures value { result ≡ vaz_new trace.now state.old }
    ensures state_after { state.new ≡ vaz_new_state trace.now state.old }
{
    refusal_of(lent::new(trace, state))
}

// One arrival at an input for an output, in the lent switch's slot: the answer is 1 for accepted and 2 for dropped.
pub fn vaz_arrive(state: &mut [u32], input: u32, output: u32, answer: &mut [u32]) -> u32
    ensures value { result ≡ vaz_arrive state.old input output answer.old }
    ensures state_after { state.new ≡ vaz_arrive_state state.old input output answer.old }
    ensures answer_after { answer.new ≡ vaz_arrive_answer state.old input output answer.old }
{
    refusal_of(lent::arrive(state, input, output, answer))
}

// The lent switch's slot is closed.
pub fn vaz_close(state: &mut [u32]) -> u32
    ensures value { result ≡ vaz_close state.old }
    ensures state_after { state.new ≡ vaz_close_state state.old }
{
    refusal_of(lent::close(state))
}

// The lent switch is drained: the answer is 1 for empty and 0 for not, and then the quiet slots.
pub fn vaz_drain(state: &mut [u32], limit: u32, answer: &mut [u32]) -> u32
    ensures value { result ≡ vaz_drain state.old limit answer.old }
    ensures state_after { state.new ≡ vaz_drain_state state.old limit answer.old }
    ensures answer_after { answer.new ≡ vaz_drain_answer state.old limit answer.old }
{
    refusal_of(lent::drain(state, limit, answer))
}
