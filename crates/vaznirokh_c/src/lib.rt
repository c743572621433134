// The static library: the functions of vaznirokh as exports for C and what calls as C does (include/vaznirokh.h). Each calls its namesake, and promises what that promises.
#![tactic(auto)]

ghost use Rattle.std.specs.Prelude.{◌≡◌};
ghost use Rattle.vaznirokh.specs.Library.{vaz_examine, vaz_run, vaz_run_log, vaz_run_counts, vaz_write, vaz_write_out};
ghost use Rattle.vaznirokh.specs.Library.{vaz_new, vaz_new_state, vaz_arrive, vaz_arrive_state, vaz_arrive_answer, vaz_close, vaz_close_state};
ghost use Rattle.vaznirokh.specs.Library.{vaz_drain, vaz_drain_state, vaz_drain_answer};

#[unsafe(no_mangle)]
pub extern "C" fn vaz_examine(trace: &[u8]) -> u32
    ensures { result ≡ vaz_examine trace.now }
{
    vaznirokh::vaz_examine(trace)
}

#[unsafe(no_mangle)]
pub extern "C" fn vaz_run(trace: &[u8], log: &mut [u32], counts: &mut [u32]) -> u32
    ensures value { result ≡ vaz_run trace.now log.old counts.old }
    ensures log_after { log.new ≡ vaz_run_log trace.now log.old counts.old }
    ensures counts_after { counts.new ≡ vaz_run_counts trace.now log.old counts.old }
{
    vaznirokh::vaz_run(trace, log, counts)
}

#[unsafe(no_mangle)]
pub extern "C" fn vaz_write(
    header: &[u32],
    capacities: &[u16],
    slot_counts: &[u16],
    arrivals: &[u8],
    out: &mut [u8],
) -> u32
    ensures value { result ≡ vaz_write header.now capacities.now slot_counts.now arrivals.now out.old }
    ensures out_after { out.new ≡ vaz_write_out header.now capacities.now slot_counts.now arrivals.now out.old }
{
    vaznirokh::vaz_write(header, capacities, slot_counts, arrivals, out)
}

#[unsafe(no_mangle)]
pub extern "C" fn vaz_new(trace: &[u8], state: &mut [u32]) -> u32
    ensures value { result ≡ vaz_new trace.now state.old }
    ensures state_after { state.new ≡ vaz_new_state trace.now state.old }
{
    vaznirokh::vaz_new(trace, state)
}

#[unsafe(no_mangle)]
pub extern "C" fn vaz_arrive(state: &mut [u32], input: u32, output: u32, answer: &mut [u32]) -> u32
    ensures value { result ≡ vaz_arrive state.old input output answer.old }
    ensures state_after { state.new ≡ vaz_arrive_state state.old input output answer.old }
    ensures answer_after { answer.new ≡ vaz_arrive_answer state.old input output answer.old }
{
    vaznirokh::vaz_arrive(state, input, output, answer)
}

#[unsafe(no_mangle)]
pub extern "C" fn vaz_close(state: &mut [u32]) -> u32
    ensures value { result ≡ vaz_close state.old }
    ensures state_after { state.new ≡ vaz_close_state state.old }
{
    vaznirokh::vaz_close(state)
}

#[unsafe(no_mangle)]
pub extern "C" fn vaz_drain(state: &mut [u32], limit: u32, answer: &mut [u32]) -> u32
    ensures value { result ≡ vaz_drain state.old limit answer.old }
    ensures state_after { state.new ≡ vaz_drain_state state.old limit answer.old }
    ensures answer_after { answer.new ≡ vaz_drain_answer state.old limit answer.old }
{
    vaznirokh::vaz_drain(state, limit, answer)
}
