// What the engine's arrays stand for, and what loops over them leave: definitions and laws only.
#![tactic(auto)]
