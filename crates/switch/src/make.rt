// The capacities of a new switch, out of a trace (document 01, "The trace file").
ghost use Rattle.std.specs.Prelude.{◌≡◌, ◌&&◌, cond, ◌≤◌, ◌+◌, ◌*◌, ltb};
ghost use Rattle.base.specs.Below.{list_below};
ghost use Rattle.trace.specs.Reading.{header_of, capacity, reading};
ghost use Rattle.switch.specs.Allowed.{used_pair};
ghost use Rattle.switch.specs.Making.{capacity_of_pair, output_capacities, crosspoint_capacities, fresh, nought, empty_queues, unused};

use crate::Switch;
use layout::Header;
use queues::Queues;

// The capacities of a trace whose switch has N ports.
#[derive(Clone, Copy)]
struct Capacities<'a> {
    trace: &'a [u8],
    ports: u32,
    ghost few: { ports ≤ 16 },
}

impl Capacities<'_> {
    // The one at place k of those for pairs, where the file has them from entry `from` on.
    #[tactic(auto, unfolding(crate::specs::Making::capacity_of_pair))]
    fn pair(&self, from: usize, k: usize) -> u32
        requires { (from ≤ 4096) × (k ≤ 256) }
        ensures { result ≡ cond (used_pair self.now.ports k) (capacity_of_pair self.now.trace.now self.now.ports from k) 0 }
    {
        if crate::judge::used_pair(self.ports, k) {
            trace::capacity(self.trace, from + (k / 16 * (self.ports as usize) + k % 16))
        } else {
            0
        }
    }

    fn pairs(&self, from: usize) -> [u32; 256]
        requires { from ≤ 4096 }
        ensures { result ≡ list_below (λ k. cond (used_pair self.now.ports k) (capacity_of_pair self.now.trace.now self.now.ports from k) 0) 256 }
    {
        std::array::from_fn(|k| self.pair(from, k))
    }

    fn output(&self, j: usize) -> u32
        requires { j ≤ 16 }
        ensures { result ≡ cond (ltb j self.now.ports) (capacity self.now.trace.now (self.now.ports * self.now.ports + j)) 0 }
    {
        let n = self.ports as usize;
        if j < n {
            trace::capacity(self.trace, n * n + j)
        } else {
            0
        }
    }

    fn outputs(&self) -> [u32; 16]
        ensures { result ≡ output_capacities self.now.trace.now self.now.ports }
    {
        std::array::from_fn(|j| self.output(j))
    }

    #[tactic(auto, using(crate::proofs::MakingLaws::with_crosspoints, crate::proofs::MakingLaws::without_crosspoints), unfolding(layout::specs::Header::has_crosspoints))]
    fn crosspoints(&self, model: u32) -> [u32; 256]
        ensures { result ≡ crosspoint_capacities self.now.trace.now model self.now.ports }
    {
        let n = self.ports as usize;
        if model == 2 {
            self.pairs(n * n + n)
        } else {
            [0; 256]
        }
    }
}

#[tactic(auto, unfolding(crate::specs::Making::empty_queues))]
fn empty_queues(incap: [u32; 256], outcap: [u32; 16], crosscap: [u32; 256]) -> Queues
    ensures { result ≡ empty_queues incap outcap crosscap }
{
    Queues {
        incap,
        outcap,
        crosscap,
        inlen: [0; 256],
        outlen: [0; 16],
        crosslen: [0; 256],
    }
}

#[tactic(auto, unfolding(crate::specs::Making::unused))]
fn unused(model: u32, order: u32, ports: u32, speedup: u32, queues: Queues) -> Switch
    ensures { result ≡ unused model order ports speedup queues }
{
    Switch {
        model,
        order,
        ports,
        speedup,
        slot: 0,
        arrived: 0,
        dropped: 0,
        crossed: 0,
        outmoved: 0,
        sent: 0,
        queues,
    }
}

#[tactic(auto, unfolding(crate::specs::Making::nought))]
pub(crate) fn nought() -> Switch
    ensures { result ≡ nought }
{
    unused(0, 0, 0, 0, empty_queues([0; 256], [0; 16], [0; 256]))
}

#[tactic(auto, using(crate::proofs::MakingLaws::ports_few))]
pub(crate) fn fresh(trace: &[u8], header: Header) -> Switch
    requires { (reading trace.now ≡ 0) × (header ≡ header_of trace.now) }
    ensures { result ≡ fresh trace.now }
{
    let capacities = Capacities {
        trace,
        ports: header.ports,
    };
    let queues = empty_queues(
        capacities.pairs(0),
        capacities.outputs(),
        capacities.crosspoints(header.model),
    );
    unused(
        header.model,
        header.order,
        header.ports,
        header.speedup,
        queues,
    )
}
