// The known outcomes of the rules: specs/Outcomes.antt is the table, proofs/KnownOutcomes.antt its proof. specs/Decided.antt has the cases on which readings
// of the papers differ, specs/Runs.antt lists of updates.
#![tactic(auto)]
