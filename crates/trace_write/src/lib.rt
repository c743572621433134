// Writing a trace file (document 01, "The trace file") into a lent buffer.
#![tactic(auto)]

mod put; // put.rt: numbers as bytes, and whole tables of them, into a slice
mod lent; // lent.rt: what is lent to the writer, judged and written

ghost use Rattle.std.specs.Prelude.{◌≡◌};
ghost use Rattle.trace_write.specs.Writing.{written, written_out};

use base::Refusal;
use layout::{File, Header};
use lent::Lent;

// Writes the file, and answers its total or the first refusal, which leaves the output as it was.
pub fn write(
    header: Header,
    capacities: &[u16],
    counts: &[u16],
    ports: &[u8],
    out: &mut [u8],
) -> Result<usize, Refusal>
    ensures value { result ≡ written header capacities.now counts.now ports.now out.old }
    ensures out_after { out.new ≡ written_out header capacities.now counts.now ports.now out.old }
{
    let file = File::of(header)?;
    let lent = Lent {
        file,
        capacities,
        counts,
        ports,
    };
    lent.refusal(out.len())?;
    lent.fill(out);
    Ok(file.places.total)
}
