// The tests of a move in the paper's order: the panel's, and the task's own.
#![tactic(auto)]

pub mod choices;
pub mod panel;
