// The report on a trace (document 01, "Bench cases"), as text on a lent page.
ghost use Rattle.std.specs.Prelude.{◌≡◌, ◌≤◌};
ghost use Rattle.text.specs.Text.{Written};
ghost use Rattle.text.specs.Page.{Puts};
ghost use Rattle.switch.specs.Draining.{drain};
ghost use Rattle.report.specs.Report.{count_lines, totals, report_of, slots_in};

use run::Counts;
use switch::{Drain, Switch};
use text::Page;

// The slots of a drain with limit 4,096; of a refused one its number, which the report of no trace holds (run/proofs/QuietLaws).
fn quiet_slots(s: Switch) -> u32
    ensures { result ≡ slots_in (drain s 4096) }
{
    match s.drain(4096) {
        Ok(drained) => match drained.drain {
            Drain::Empty(n) | Drain::NotEmpty(n) => n,
        },
        Err(refused) => refused.refusal.number(),
    }
}

// The counts.
fn count_lines(page: &mut Page, counts: Counts)
    ensures { Puts page.old (count_lines counts) page.new }
{
    page.line(b"arrived", counts.arrived);
    page.line(b"dropped", counts.dropped);
    page.line(b"crossed", counts.crossed);
    page.line(b"outmoved", counts.outmoved);
    page.line(b"sent", counts.sent);
    page.line(b"held", counts.held);
}

// The counts, the loss and the quiet slots.
fn totals(page: &mut Page, counts: Counts, quiet: u32)
    requires { counts.dropped ≤ counts.arrived }
    ensures { Puts page.old (totals counts quiet) page.new }
{
    count_lines(page, counts);
    let lost = loss::per_thousand(counts.dropped, counts.arrived) as u32;
    page.line(b"per-thousand", lost);
    page.line(b"quiet", quiet);
}

// The report on a trace, from the page's start. 16,384 words are room enough for any trace's log.
pub fn report(trace: &[u8], page: &mut [u8]) -> usize
    ensures { Written page.old 0 (report_of trace.now) page.new result }
{
    let mut log = [0u32; 16384];
    let mut page = Page { bytes: page, at: 0 };
    page.put(b"name value\n");
    match run::finish(trace, &mut log) {
        Ok(end) => totals(&mut page, end.counts(), quiet_slots(end.switch)),
        Err(refused) => page.line(b"refused", refused.refusal.number()),
    }
    page.at
}
