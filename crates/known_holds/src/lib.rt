// The calls on the table of holds worked through: specs/Holds.antt has the rows of those by value, proofs/KnownHolds.antt their proof; specs/LentHolds.antt
// those on lent bytes, proofs/KnownLentHolds.antt theirs. Those that docs/RULES.md stars are in crate known_outcomes.
#![tactic(auto)]
