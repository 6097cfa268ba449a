// Document 01's trials, as tables under one claim each: definitions and computing only.
#![tactic(auto)]
