// Laws over any list of calls on the tables of cells; no code. specs/ states them, proofs/ proves them.
#![tactic(auto)]
