// A header whose numbers are allowed, with its places, and what the tables of its file may hold (document 01, "The trace file", refusals 9 to 11).
ghost use Rattle.std.specs.Prelude.{◌≡◌, ℕ, IfOk, ltb};
ghost use Rattle.base.specs.Below.{all_below, sum_below};
ghost use Rattle.base.specs.Refusal.{judged};
ghost use Rattle.layout.specs.Header.{header_refusal, places_of, laid_out};
ghost use Rattle.layout.specs.Tables.{capacity_allowed, tables_refusal};

use crate::{Header, Places};
use base::{Refusal, unless};

// The file that an allowed header lays out.
#[derive(Clone, Copy, Debug)]
pub struct File {
    pub header: Header,
    pub places: Places,
    pub ghost allowed: { header_refusal header ≡ 0 },
    pub ghost placed: { places ≡ places_of header },
}

impl File {
    ghost use Rattle.layout.specs.File.{places_in};

    // The file of a header, or the refusal of one of its numbers, 2 to 7.
    pub fn of(header: Header) -> Result<File, Refusal>
        ensures header { IfOk result (λ file. file.header ≡ header) }
        ensures verdict { places_in result ≡ laid_out header }
    {
        let places = crate::lay_out(header)?;
        Ok(File { header, places })
    }
}

// The three tables, whoever hands them in: the reader out of the trace, the writer out of what was lent. Of arrival a the input port is byte 2 × a, and the
// output port the one after it.
pub trait Tables {
    ghost capacities: { Self → ℕ → ℕ };

    ghost counts: { Self → ℕ → ℕ };

    ghost ports: { Self → ℕ → ℕ };

    fn capacity(&self, k: usize) -> u16
        ensures { result ≡ capacities self.now k };

    fn count(&self, t: usize) -> u16
        ensures { result ≡ counts self.now t };

    fn port(&self, b: usize) -> u8
        ensures { result ≡ ports self.now b };
}

// Whether each of the first n capacities is allowed.
fn capacities_allowed<T: Tables>(tables: &T, n: usize) -> bool
    ensures { result ≡ all_below (λ k. capacity_allowed (T.capacities tables.now k)) n }
{
    (0..n).all(|k| crate::capacity_allowed(tables.capacity(k) as u32))
}

// The sum of the first n slot counts. (Over `map` and `sum` the proof does not close.)
#[tactic(auto, using(base::proofs::Below::sum_none, base::proofs::Below::sum_more))]
fn sum<T: Tables>(tables: &T, n: u16) -> u32
    ensures { result ≡ sum_below (T.counts tables.now) n }
{
    let mut sum: u32 = 0;
    for t in 0..n as usize {
        sum += tables.count(t) as u32;
    }
    sum
}

// Whether each of the first n ports is below the number of ports.
fn ports_below<T: Tables>(tables: &T, n: usize, ports: u32) -> bool
    ensures { result ≡ all_below (λ b. ltb (T.ports tables.now b) ports) n }
{
    (0..n).all(|b| (tables.port(b) as u32) < ports)
}

// The refusals 9 to 11, of tables that stand in their places.
pub fn tables_refusal<T: Tables>(file: File, tables: &T) -> Result<(), Refusal>
    ensures { result ≡ judged (tables_refusal file.header (T.capacities tables.now) (T.counts tables.now) (T.ports tables.now)) tt }
{
    let header = file.header;
    let arrivals = header.arrivals;
    unless(
        capacities_allowed(tables, file.places.capacities),
        Refusal::Capacity,
    )?;
    unless(
        sum(tables, header.slots as u16) == arrivals,
        Refusal::SlotCounts,
    )?;
    unless(
        ports_below(tables, 2 * (arrivals as usize), header.ports),
        Refusal::ArrivalPort,
    )
}
