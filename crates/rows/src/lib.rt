// Document 01's rows and other worked cases: specs/ alone. There is no code.
#![tactic(auto)]
