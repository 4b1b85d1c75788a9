// The laws of the definitions in `paper`: specs/ alone, read in the order of specs/Lib.antt. There is no code.
#![tactic(auto)]
