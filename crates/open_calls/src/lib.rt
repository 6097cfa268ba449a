// Calls of a portion, each on what the last one left: definitions and theorems alone.
#![tactic(auto)]
