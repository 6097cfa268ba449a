// The promise of a run, refused or played, in any form, and its laws. No code.
#![tactic(auto)]
