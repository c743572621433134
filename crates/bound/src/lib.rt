// Greedy matching against any rival: what both are, and the bound. There is no code here: see specs/ and proofs/.
#![tactic(auto)]
