// Judging a model: what is found of one, and what that says.
#![tactic(auto)]

pub mod finding;
