// Rows of edition 2, decided by computing. No code.
#![tactic(auto)]
