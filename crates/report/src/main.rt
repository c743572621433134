// Reads a trace from standard input and prints the report on it (document 01, "Bench cases"). No accepted trace is longer than 17,480 bytes, so 17,481 of them decide
// (trace/proofs/LongLaws).
#![tactic(auto)]

mod report; // report.rt: the text

ghost use Rattle.std.specs.Prelude.{OnOk, IfSome};
ghost use Rattle.std.specs.Io.KnownBytes.{Appends};
ghost use Rattle.report.specs.Report.{report_of};

use std::io;
use std::io::{Read, Write};

// The report on a trace, in one write. (No heap: the page here, the log and the buffer are of a fixed size.)
fn print_report<W: Write>(out: &mut W, trace: &[u8]) -> io::Result<()>
    ensures { OnOk result (Appends (W.contents out.old) (W.contents out.new) (report_of trace.now)) }
{
    let mut page = [0u8; 512];
    let length = report::report(trace, &mut page);
    out.write_all(&page[..length])
}

// The words of a refused trace's refusal.
fn tell<E: Write>(error: &mut E, trace: &[u8]) {
    if let Err(refusal) = trace::examine(trace) {
        refusal_text::told(error, refusal.number());
    }
}

// The report on the trace that is read, and of a refused one its words. What could be read is reported on also where a read failed, and told also where a write failed.
fn report_all<R: Read, W: Write, E: Write>(
    reader: &mut R,
    out: &mut W,
    error: &mut E,
) -> io::Result<()>
    ensures { OnOk result (IfSome (R.remaining reader.old) (λ s. Appends (W.contents out.old) (W.contents out.new) (report_of s))) }
{
    let mut buffer = [0u8; 17481];
    let (n, read) = input::fill(reader, &mut buffer);
    let trace = &buffer[..n];
    let written = print_report(out, trace);
    tell(error, trace);
    read?;
    written
}

// What cannot be read or written is left out.
fn main(rt: HostRuntime) {
    let _ = report_all(&mut rt.stdin(), &mut rt.stdout(), &mut rt.stderr());
}
