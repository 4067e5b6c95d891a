// Checking the steps of a tableau: the walk over its branches, and what it finds.
#![tactic(auto)]

mod straight;
mod walk;

pub use walk::check_steps;
