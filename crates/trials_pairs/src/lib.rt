// Rows of the form whose pages can tear, decided by computing. No code.
#![tactic(auto)]
