// Amounts of 128 bits, bits of a number, and numbers as bytes.
#![tactic(auto, using(crate::proofs::Ways::ways))]

pub mod amount;
pub mod bits;
pub mod little_endian;
