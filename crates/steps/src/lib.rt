// Steps of a tableau: their six bytes, what the rule of a step concludes, and the refusals of a step on a
// branch that go by its rule.
#![tactic(auto)]

mod outcome;
pub mod step;
mod table;
pub mod take;
