// Runs stored traces and holds each answer to the one that the second program gave (second/README.md has the file's form): the refusal, the counts,
// the quiet slots of a drain, and the whole lent log. Prints how many traces there were and how many differ.
#![tactic(auto)]

ghost use Rattle.std.specs.Prelude.{◌≡◌, ◌-◌, ◌≤◌, length};

use run::Counts;
use switch::{Drain, Drained};

// What the log holds before a run. (No heap: the logs and the buffer are of a fixed size.)
const BLANK: u32 = 2863311530;

// Byte k, and 0 past the end.
fn byte(s: &[u8], k: usize) -> u8 {
    s.get(k).copied().unwrap_or(0)
}

// Number k of a run of 32-bit numbers, low byte first.
fn number(s: &[u8], k: u32) -> u32 {
    u32::from_le_bytes(std::array::from_fn(|b| byte(s, 4 * (k as usize) + b)))
}

// The first n bytes and those behind them, as far as there are any.
fn cut(s: &[u8], n: usize) -> (&[u8], &[u8])
    ensures { length result.1.now ≡ length s.now - n }
{
    s.split_at(n.min(s.len()))
}

// The log: the stored words, and behind them what it held.
fn same_log(stored: &[u8], words: u32, log: &[u32; 16384]) -> bool {
    (0..16384u32).zip(log).all(|(k, word)| *word
        == if k < words { number(stored, k) } else { BLANK })
}

// The six counts behind an answer's refusal.
fn counts_in(answer: &[u8]) -> Counts {
    Counts {
        arrived: number(answer, 1),
        dropped: number(answer, 2),
        crossed: number(answer, 3),
        outmoved: number(answer, 4),
        sent: number(answer, 5),
        held: number(answer, 6),
    }
}

// The quiet slots after a run, 0 for a refused trace. A drain that is refused or does not end empty has no such number: 4,097 is none, and a number since it is compared with the stored one.
fn quiet_after(trace: &[u8]) -> u32 {
    let mut log = [0u32; 16384];
    let Ok(end) = run::finish(trace, &mut log) else {
        return 0;
    };
    match end.switch.drain(4096) {
        Ok(
            Drained {
                drain: Drain::Empty(n),
                ..
            },
        ) => n,
        _ => 4097,
    }
}

// A stored trace's answer: refusal, six counts, quiet slots, the number of words, and the words.
fn same(trace: &[u8], answer: &[u8], stored: &[u8]) -> bool {
    let mut log = [BLANK; 16384];
    let (refusal, counts) = match run::run(trace, &mut log) {
        Ok(counts) => (0, counts),
        Err(refused) => (refused.refusal.number(), refused.answer),
    };
    number(answer, 0) == refusal
        && counts_in(answer) == counts
        && number(answer, 7) == quiet_after(trace)
        && same_log(stored, number(answer, 8), &log)
}

// What cannot be written is left out. (Its like in `limit` takes a wider number; the two share no crate.)
fn line(rt: &impl Print, name: &str, n: u32) {
    let _ = println!(rt; "{name} {n}");
}

#[derive(Clone, Copy, Debug, Default, PartialEq, Eq)]
struct Tally {
    traces: u32,
    differ: u32,
}

// All stored traces, one behind the other: a trace's length, the trace, its answer.
fn compare_all(all: &[u8]) -> Tally
    requires { length all.now ≤ 262144 }
{
    let mut tally = Tally::default();
    let mut rest = all;
    // each part says how long it is: there is nothing to count
    while !rest.is_empty() {
        let (n, behind) = cut(rest, 4);
        let (trace, behind) = cut(behind, number(n, 0) as usize);
        let (answer, behind) = cut(behind, 36);
        let (stored, behind) = cut(behind, 4 * (number(answer, 8) as usize));
        if !same(trace, answer, stored) {
            tally.differ += 1;
        }
        tally.traces += 1;
        rest = behind;
    }
    tally
}

fn main(rt: HostRuntime) {
    let mut buffer = [0u8; 262144];
    let (n, _) = input::fill(&mut rt.stdin(), &mut buffer);
    let tally = compare_all(&buffer[..n]);
    line(&rt, "traces", tally.traces);
    line(&rt, "differ", tally.differ);
}
