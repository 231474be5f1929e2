// A base transaction passes the peer's comparison, a theorem that no code needs: proofs/Claims.antt states it, and has all claims on a base together;
// proofs/Compared.antt proves it. It alone says something of our own side and of a peer's update.
#![tactic(auto)]
