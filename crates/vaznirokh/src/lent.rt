// The work on lent runs. A run of the wrong length is refused before anything else, and after a refusal nothing that was lent is changed.
ghost use Rattle.std.specs.Prelude.{◌≡◌, length};
ghost use Rattle.base.specs.Refusal.{refusal_of};
ghost use Rattle.image.specs.Image.{image_of};
ghost use Rattle.vaznirokh.specs.Library.{length_number, header_of_words, vaz_run, vaz_run_log, vaz_run_counts, vaz_write, vaz_write_out};
ghost use Rattle.vaznirokh.specs.Library.{vaz_new, vaz_new_state, vaz_arrive, vaz_arrive_state, vaz_arrive_answer, vaz_close, vaz_close_state};
ghost use Rattle.vaznirokh.specs.Library.{vaz_drain, vaz_drain_state, vaz_drain_answer};

use crate::answers;
use base::{Refusal, unless};
use layout::Header;
use switch::Switch;

// 30 unless a run of words has n entries.
fn length(n: usize, words: &[u32]) -> Result<(), Refusal>
    ensures { refusal_of result ≡ length_number n words.now }
{
    unless(words.len() == n, Refusal::LentLength)
}

// A whole trace.
pub(crate) fn run(trace: &[u8], log: &mut [u32], counts: &mut [u32]) -> Result<(), Refusal>
    ensures value { refusal_of result ≡ vaz_run trace.now log.old counts.old }
    ensures log_after { log.new ≡ vaz_run_log trace.now log.old counts.old }
    ensures counts_after { counts.new ≡ vaz_run_counts trace.now log.old counts.old }
{
    length(6, counts)?;
    let six = run::run(trace, log)?;
    counts.copy_from_slice(&answers::count_words(six));
    Ok(())
}

// Six words as a header.
#[tactic(auto, unfolding(crate::specs::Library::header_of_words))]
fn header(words: &[u32]) -> Header
    ensures { result ≡ header_of_words words.now }
{
    Header {
        model: queues::number_at(words, 0),
        order: queues::number_at(words, 1),
        ports: queues::number_at(words, 2),
        speedup: queues::number_at(words, 3),
        slots: queues::number_at(words, 4),
        arrivals: queues::number_at(words, 5),
    }
}

// A trace from a header's words and three tables.
pub(crate) fn write(
    words: &[u32],
    capacities: &[u16],
    slot_counts: &[u16],
    arrivals: &[u8],
    out: &mut [u8],
) -> Result<(), Refusal>
    ensures value { refusal_of result ≡ vaz_write words.now capacities.now slot_counts.now arrivals.now out.old }
    ensures out_after { out.new ≡ vaz_write_out words.now capacities.now slot_counts.now arrivals.now out.old }
{
    length(6, words)?;
    trace_write::write(header(words), capacities, slot_counts, arrivals, out)?;
    Ok(())
}

// A switch into the 1,066 words that are lent for it.
fn store(state: &mut [u32], s: Switch)
    requires { length state.old ≡ 1066 }
    ensures { state.new ≡ image_of s }
{
    image::put_switch(state, s);
}

// A new switch.
pub(crate) fn new(trace: &[u8], state: &mut [u32]) -> Result<(), Refusal>
    ensures value { refusal_of result ≡ vaz_new trace.now state.old }
    ensures state_after { state.new ≡ vaz_new_state trace.now state.old }
{
    length(1066, state)?;
    let s = Switch::new(trace)?;
    store(state, s);
    Ok(())
}

// One arrival.
pub(crate) fn arrive(
    state: &mut [u32],
    input: u32,
    output: u32,
    answer: &mut [u32],
) -> Result<(), Refusal>
    ensures value { refusal_of result ≡ vaz_arrive state.old input output answer.old }
    ensures state_after { state.new ≡ vaz_arrive_state state.old input output answer.old }
    ensures answer_after { answer.new ≡ vaz_arrive_answer state.old input output answer.old }
{
    length(1066, state)?;
    length(1, answer)?;
    let arrived = image::switch_of(state).arrive(input, output)?;
    store(state, arrived.switch);
    answer[0] = answers::taken_word(arrived.taken);
    Ok(())
}

// A closing.
pub(crate) fn close(state: &mut [u32]) -> Result<(), Refusal>
    ensures value { refusal_of result ≡ vaz_close state.old }
    ensures state_after { state.new ≡ vaz_close_state state.old }
{
    length(1066, state)?;
    let s = image::switch_of(state).close()?;
    store(state, s);
    Ok(())
}

// A drain.
pub(crate) fn drain(state: &mut [u32], limit: u32, answer: &mut [u32]) -> Result<(), Refusal>
    ensures value { refusal_of result ≡ vaz_drain state.old limit answer.old }
    ensures state_after { state.new ≡ vaz_drain_state state.old limit answer.old }
    ensures answer_after { answer.new ≡ vaz_drain_answer state.old limit answer.old }
{
    length(1066, state)?;
    length(2, answer)?;
    let drained = image::switch_of(state).drain(limit)?;
    store(state, drained.switch);
    answer.copy_from_slice(&answers::drain_words(drained.drain));
    Ok(())
}
