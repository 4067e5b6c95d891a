// What a tableau's branch is made of: document 01's lines, and the tests of their parts.
#![tactic(auto)]

pub mod line;
pub mod parts;
pub mod views;
