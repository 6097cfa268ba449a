// Demand 3 of document 01, told from events and answers alone (specs/), proved of the rules (proofs/). No code.
#![tactic(auto)]
