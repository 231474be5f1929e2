// The calls of an update's cases, of known_outcomes, known_orders and known_lines (specs/Cases.antt), and what their verdicts compute with
// (proofs/Computing.antt); the two largest are proved here, each by itself (proofs/Largest.antt).
#![tactic(auto)]
