// Judging a tableau: its header, and the refusals of document 01 in its order.
#![tactic(auto)]

mod header;
pub mod judge;
