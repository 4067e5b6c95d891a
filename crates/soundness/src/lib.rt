// Laws about the rules, and no code: what they conclude is sound, speaks of the pattern's entries, and
// has the sides that the table says.
#![tactic(auto)]
