// Reads a trace from standard input and prints what no rival can beat: what the run has sent, the limit at the trace's end, and the limit once a drain has emptied
// the switch. A trace of model 2 is refused by 2. No accepted trace is longer than 17,480 bytes, so 17,481 of them decide.
#![tactic(auto)]

use base::Refusal;
use run::Counts;

// What cannot be written is left out. (Its like in `stored` takes a narrower number; the two share no crate.)
fn line(rt: &impl Print, name: &str, n: u64) {
    let _ = println!(rt; "{name} {n}");
}

// The counts of a run of model 1. (No heap: the log and the buffer are of a fixed size.)
fn counted(trace: &[u8]) -> Result<Counts, Refusal> {
    let mut log = [0u32; 16384];
    let counts = run::run(trace, &mut log)?;
    base::unless(trace::head(trace).model == 1, Refusal::Model)?;
    Ok(counts)
}

fn main(rt: HostRuntime) {
    let mut buffer = [0u8; 17481];
    let (n, _) = input::fill(&mut rt.stdin(), &mut buffer);
    let counted = counted(&buffer[..n]);
    let _ = println!(rt; "name value");
    match counted {
        Ok(counts) => {
            let limits = greedy_bound::of_run(counts);
            line(&rt, "sent", counts.sent as u64);
            line(&rt, "limit", limits.end);
            line(&rt, "limit-drained", limits.drained);
        }
        // A refusal, with its words on standard error.
        Err(refusal) => {
            line(&rt, "refused", refusal.number() as u64);
            refusal_text::told(&mut rt.stderr(), refusal.number());
        }
    }
}
