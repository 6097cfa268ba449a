// What the rules' switch for prepare, decide and query changes, and what it leaves alone. No code.
#![tactic(auto)]
