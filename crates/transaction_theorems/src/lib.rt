// Theorems on reading and writing transactions, which no code needs: proofs/Claims.antt states those on fields, proofs/ReadExactly.antt which strings are
// read, proofs/FieldsDecoded.antt what the accessors give, proofs/WrittenReads.antt that what is written is readable.
#![tactic(auto)]
