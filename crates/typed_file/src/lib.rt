// The pattern file of a typed pattern, document 02's Job 7: its entries in the order of their first
// completion, that it is a valid pattern, and that it means what the text does. Definitions and laws,
// without code.
#![tactic(auto)]
