// Satisfaction in a finite data model as a test that computes, and what met and unmet say: definitions
// and laws, and no code.
#![tactic(auto)]
