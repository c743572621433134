// The header of a trace file (document 01, "The trace file"): what its numbers may be, the places that they give the tables, and what the tables may hold.
// Reader and writer share it.
#![tactic(auto)]

mod file; // file.rt: a header whose numbers are allowed, with its places; what the tables may hold

ghost use Rattle.std.specs.Prelude.{◌≡◌, ◌≤◌};
ghost use Rattle.layout.specs.Header.{model_allowed, side_allowed, header_refusal, capacity_count, places_of, laid_out};
ghost use Rattle.layout.specs.Tables.{capacity_allowed};
ghost use Rattle.base.specs.Refusal.{judged};

use base::{Refusal, unless};
pub use file::{File, Tables, tables_refusal};

// The header's first six words. They are numbers, a model and an order too, since a trace may hold any: `examine` and `head` answer for each.
#[derive(Clone, Copy, Debug, PartialEq, Eq)]
pub struct Header {
    pub model: u32,
    pub order: u32,
    pub ports: u32,
    pub speedup: u32,
    pub slots: u32,
    pub arrivals: u32,
}

// What a header's numbers make of the file: how many capacities there are, where the slot counts and the arrivals start, and where
// the file ends.
#[derive(Clone, Copy, Debug, PartialEq, Eq)]
pub struct Places {
    pub capacities: usize,
    pub counts: usize,
    pub arrivals: usize,
    pub total: usize,
}

// Whether a model is allowed: 1 CIOQ, 2 buffered crossbar.
#[tactic(auto, unfolding(crate::specs::Header::model_allowed))]
pub fn model_allowed(m: u32) -> bool
    ensures { result ≡ model_allowed m }
{
    m == 1 || m == 2
}

// Whether a number of ports, or a speedup, is allowed: 1 to 16. This test and the next are two promised names.
#[tactic(auto, unfolding(crate::specs::Header::side_allowed))]
pub fn side_allowed(n: u32) -> bool
    ensures { result ≡ side_allowed n }
{
    1 <= n && n <= 16
}

// Whether a capacity is allowed: 1 to 1,024.
#[tactic(auto, unfolding(crate::specs::Tables::capacity_allowed))]
pub fn capacity_allowed(c: u32) -> bool
    ensures { result ≡ capacity_allowed c }
{
    1 <= c && c <= 1024
}

fn header_refusal(h: Header) -> Result<(), Refusal>
    ensures { result ≡ judged (header_refusal h) tt }
{
    unless(model_allowed(h.model), Refusal::Model)?;
    unless(h.order <= 2, Refusal::Order)?;
    unless(side_allowed(h.ports), Refusal::Ports)?;
    unless(side_allowed(h.speedup), Refusal::Speedup)?;
    unless(h.slots <= 4096, Refusal::Slots)?;
    unless(h.arrivals <= 4096, Refusal::Arrivals)
}

fn capacity_count(h: Header) -> usize
    requires { header_refusal h ≡ 0 }
    ensures { (result ≡ capacity_count h) × (result ≤ 528) }
{
    let n = h.ports as usize;
    if h.model == 2 {
        return n * n + n + n * n;
    }
    n * n + n
}

fn places_of(h: Header) -> Places
    requires { header_refusal h ≡ 0 }
    ensures { result ≡ places_of h }
{
    let capacities = capacity_count(h);
    let counts = 40 + 2 * capacities;
    let arrivals = counts + 2 * (h.slots as usize);
    Places {
        capacities,
        counts,
        arrivals,
        total: arrivals + 2 * (h.arrivals as usize),
    }
}

// The places of a header whose numbers are allowed, or the refusal of one of them, 2 to 7.
pub fn lay_out(h: Header) -> Result<Places, Refusal>
    ensures { result ≡ laid_out h }
{
    header_refusal(h)?;
    Ok(places_of(h))
}
