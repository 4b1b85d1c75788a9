// Demand 3 of document 01: specs/ alone, read in the order of specs/Lib.antt. There is no code.
#![tactic(auto)]
