#![tactic(auto)]

// Document 01's rules as definitions (specs/) with their laws (proofs/). No code.
