// A trace's refusal for a person: its number with the words of document 01's table, as a line on a lent page.
#![tactic(auto)]

ghost use Rattle.std.specs.Prelude.{◌≡◌, ◌≤◌, OnOk};
ghost use Rattle.std.specs.Io.KnownBytes.{Appends};
ghost use Rattle.text.specs.Text.{Written};
ghost use Rattle.refusal_text.specs.Refusals.{words, refusal_line};

use std::io;
use std::io::Write;
use text::Page;

// Given exactly when. By number, as in the table: `refusal_line` and `told` promise an answer for every number.
#[tactic(auto, unfolding(crate::specs::Refusals::words, text::specs::Text::ascii))]
fn words(n: u32) -> &'static [u8]
    ensures { result.now ≡ words n }
{
    match n {
        1 => b"fewer than 40 bytes",
        2 => b"model not allowed",
        3 => b"order not allowed",
        4 => b"ports not allowed",
        5 => b"speedup not allowed",
        6 => b"slots above 4,096",
        7 => b"arrivals above 4,096",
        8 =>
            b"an offset or the total differs from what the counts make it, or the slice's length is not the total",
        9 => b"a capacity not allowed",
        10 => b"slot counts do not add up to arrivals",
        11 => b"an arrival's port is N or more",
        _ => b"no refusal of a trace",
    }
}

// The line of refusal n. (A page and a place, not a `Page`: it is promised with its place, docs/PROMISES.md.)
pub fn refusal_line(page: &mut [u8], at: usize, n: u32) -> usize
    ensures { Written page.old at (refusal_line n) page.new result }
{
    let mut page = Page { bytes: page, at };
    page.put(b"refused ");
    page.decimal(n);
    page.put(b": ");
    page.put(words(n));
    page.put(b"\n");
    page.at
}

// Writes the line of refusal n. (No heap: a page of a fixed size.)
fn tell<W: Write>(error: &mut W, n: u32) -> io::Result<()>
    ensures { OnOk result (Appends (W.contents error.old) (W.contents error.new) (refusal_line n)) }
{
    let mut page = [0u8; 256];
    let k = refusal_line(&mut page, 0, n);
    error.write_all(&page[..k])
}

// Writes the line of refusal n, as to standard error, and hands n on, also where the write fails.
pub fn told(error: &mut impl Write, n: u32) -> u32
    ensures { result ≡ n }
{
    let _ = tell(error, n);
    n
}
