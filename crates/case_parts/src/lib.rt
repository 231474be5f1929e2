// What the cases of the crates known_* are built from (specs/Parts.antt), the form of a table of them (specs/Rows.antt), and all that their bytes compute with
// (proofs/Computing.antt).
#![tactic(auto)]
