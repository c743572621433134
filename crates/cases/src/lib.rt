// The bench cases of document 01, C1 to C12, as one table about the definitions. There is no code here: see specs/ and proofs/.
#![tactic(auto)]
