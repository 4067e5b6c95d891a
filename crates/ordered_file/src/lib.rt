// The new file that is written from an older model file, document 02's Job 4: definitions and laws, and
// no code.
#![tactic(auto)]
