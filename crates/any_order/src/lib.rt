// Tasks in any order (14/14): specs/ and proofs/, each read in the order of its Lib.antt. There is no code.
#![tactic(auto)]
