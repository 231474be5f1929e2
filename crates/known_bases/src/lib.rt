// Worked base transactions: specs/Bases.antt is the table, with lent bytes that reach each answer of `build_base`; specs/Parts.antt and specs/Picks.antt have
// the other calls of our own side and the writers of a transaction. proofs/KnownBases.antt, KnownParts.antt and KnownPicks.antt prove them.
#![tactic(auto)]
