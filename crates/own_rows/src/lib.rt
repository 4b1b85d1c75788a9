// A move on its group's own rows is the move of that group in the panel: specs/ alone, read in the order of specs/Lib.antt. There is no code.
#![tactic(auto)]
