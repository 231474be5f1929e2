// Theorems on the base transaction of our own side, which no code needs: proofs/Claims.antt states them, proofs/Base.antt proves them.
#![tactic(auto)]
