// Which switch values are allowed (document 01, refusal 13).
ghost use Rattle.std.specs.Prelude.{◌≡◌, ℕ, Bool, ◌<◌, get_or};
ghost use Rattle.base.specs.Below.{all_below};
ghost use Rattle.switch.specs.Allowed.{used_pair, queue_allowed, queues_allowed, counts_agree, switch_allowed};

use crate::Switch;
use queues::Queues;

// Whether N ports use place k of those for pairs.
#[tactic(auto, unfolding(crate::specs::Allowed::used_pair))]
pub(crate) fn used_pair(ports: u32, k: usize) -> bool
    ensures { result ≡ used_pair ports k }
{
    k / 16 < ports as usize && k % 16 < ports as usize
}

#[tactic(auto, unfolding(crate::specs::Allowed::queue_allowed))]
fn queue_allowed(used: bool, cap: u32, len: u32) -> bool
    ensures { result ≡ queue_allowed used cap len }
{
    if used {
        layout::capacity_allowed(cap) && len <= cap
    } else {
        cap == 0 && len == 0
    }
}

// Every place of one kind of queues, where some are used.
fn kind_allowed<const N: usize, F: Fn(usize) -> bool>(
    used: F,
    cap: &[u32; N],
    len: &[u32; N],
) -> bool
    requires { F.IsAlwaysCallable used }
    ensures { (f : ℕ → Bool) → ((k : ℕ) → (b : Bool) → k < N → F.post used k b → b ≡ f k) → result ≡ all_below (λ k. queue_allowed (f k) (get_or cap.now k 0) (get_or len.now k 0)) N }
{
    // (over `all` the proof doesn't know what `used` answered)
    for k in 0..N {
        if !queue_allowed(used(k), cap[k], len[k]) {
            return false;
        }
    }
    true
}

#[tactic(auto, unfolding(crate::specs::Allowed::queues_allowed))]
fn queues_allowed(model: u32, ports: u32, q: Queues) -> bool
    ensures { result ≡ queues_allowed model ports q }
{
    let inputs = kind_allowed(|k| used_pair(ports, k), &q.incap, &q.inlen);
    let outputs = kind_allowed(|j| j < ports as usize, &q.outcap, &q.outlen);
    let crosspoints = kind_allowed(
        |k| model == 2 && used_pair(ports, k),
        &q.crosscap,
        &q.crosslen,
    );
    inputs && outputs && crosspoints
}

#[tactic(auto, unfolding(crate::specs::Allowed::counts_agree, crate::specs::Switch::held, crate::specs::Switch::held_all))]
fn counts_agree(s: Switch) -> bool
    ensures { result ≡ counts_agree s }
{
    let held = crate::holds(s.queues);
    let out = s.sent as u64 + held.outputs;
    s.arrived as u64 == s.dropped as u64 + s.sent as u64 + held.all()
        && s.crossed as u64 == out + held.crosspoints
        && s.outmoved as u64 == out
}

#[tactic(auto, unfolding(crate::specs::Allowed::switch_allowed, layout::specs::Header::order_allowed))]
pub(crate) fn allowed(s: Switch) -> bool
    ensures { result ≡ switch_allowed s }
{
    layout::model_allowed(s.model)
        && s.order <= 2
        && layout::side_allowed(s.ports)
        && layout::side_allowed(s.speedup)
        && queues_allowed(s.model, s.ports, s.queues)
        && s.arrived <= 4096
        && s.slot <= 8192
        && counts_agree(s)
}
