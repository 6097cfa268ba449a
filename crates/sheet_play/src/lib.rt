// The list of a job sheet, played: its transaction numbers are those that the begins give (document 02, L10). Definitions and theorems alone.
#![tactic(auto)]
