// A medium whose writes tear, under the form that keeps each page as a pair of copies: definitions and theorems. No code.
#![tactic(auto)]
