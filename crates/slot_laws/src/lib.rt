// Laws of one slot: what the definitions of crate queues keep, conserve and bring about. There is no code here: see proofs/.
#![tactic(auto)]
