// The calls on a lent exclusion map worked through: specs/Exclusions.antt has the rows, proofs/KnownExclusions.antt their proof. Those that docs/RULES.md stars
// are rows of crate known_outcomes too.
#![tactic(auto)]
