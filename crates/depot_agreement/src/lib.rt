// Truck and depot commit together (document 02, L9): definitions and theorems alone.
#![tactic(auto)]
