// Rows of the auditor, decided by computing. No code.
#![tactic(auto)]
