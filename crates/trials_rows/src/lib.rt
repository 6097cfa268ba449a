// What a row of the trials says, and the rows that hold in every edition: definitions only.
#![tactic(auto)]
