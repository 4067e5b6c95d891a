// The rules of document 01 and of document 02's Job 6 as definitions and a table, what a rule concludes,
// and what the families of rules have in common.
#![tactic(auto)]

pub mod conclusion;
pub mod fit;
