// What greedy matching keeps every rival to: three times what it has sent, and twice what stands in its output queues. That no rival beats it is proved in proofs/.
#![tactic(auto)]

ghost use Rattle.std.specs.Prelude.{◌≡◌};
ghost use Rattle.greedy_bound.specs.Answer.{limit_answer, limits_of};

use base::Refusal;
use run::Counts;
use switch::Switch;

// The limits of a run: at the trace's end, and once a drain has emptied the switch.
#[derive(Clone, Copy, Debug, PartialEq, Eq)]
pub struct Limits {
    pub end: u64,
    pub drained: u64,
}

// The most that any rival of a switch of model 1 can have sent, or a refusal, 13 or 2. What has been moved to output queues and not been sent stands in them.
pub fn limit(s: Switch) -> Result<u32, Refusal>
    ensures { result ≡ limit_answer s }
{
    switch::refusal(s)?;
    base::unless(s.model == 1, Refusal::Model)?;
    let standing = s.outmoved - s.sent;
    Ok(3 * s.sent + 2 * standing)
}

// The limits of a run of model 1, by its counts: an emptied switch has sent all that was not dropped.
#[tactic(auto, unfolding(crate::specs::Answer::limits_of))]
pub fn of_run(counts: Counts) -> Limits
    ensures { result ≡ limits_of counts }
{
    let kept = counts.arrived.saturating_sub(counts.dropped);
    Limits {
        end: counts.sent as u64 + 2 * (counts.outmoved as u64),
        drained: 3 * (kept as u64),
    }
}
