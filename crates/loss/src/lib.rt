// Loss per thousand (document 01, "Counts and draining").
#![tactic(auto)]

ghost use Rattle.std.specs.Prelude.{◌≡◌};
ghost use Rattle.loss.specs.Loss.{per_thousand};

// 1,000 × dropped / arrived rounded down, and 0 where nothing arrived.
#[tactic(auto, using(crate::proofs::LossLaws::divided))]
pub fn per_thousand(dropped: u32, arrived: u32) -> u64
    ensures { result ≡ per_thousand dropped arrived }
{
    let thousands = 1000 * (dropped as u64);
    thousands.checked_div(arrived as u64).unwrap_or(0)
}
