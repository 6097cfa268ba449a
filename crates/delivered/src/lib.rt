// All that is promised of the rules, under one name. No code.
#![tactic(auto)]
