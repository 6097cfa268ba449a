// Job sheets as text (document 02, L10): definitions and laws alone.
#![tactic(auto)]
