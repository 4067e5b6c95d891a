// Typed patterns, document 02's Job 7: the grammar, where a text leaves it, its numbers, and what a text
// means. Definitions and laws, without code.
#![tactic(auto)]
