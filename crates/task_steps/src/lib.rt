// The three steps of a task (14/14): specs/ alone, read in the order of specs/Lib.antt. There is no code.
#![tactic(auto)]
