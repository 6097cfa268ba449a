// The clauses of soundness said of the engine's arrays, and tests that decide them: definitions and laws only.
#![tactic(auto)]
