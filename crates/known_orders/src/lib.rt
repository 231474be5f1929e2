// Worked updates on which wrong readings of the rules answer otherwise, the order of the checks above all: specs/Orders.antt is the table,
// proofs/KnownOrders.antt its proof.
#![tactic(auto)]
