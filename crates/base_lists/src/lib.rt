// Writes the outputs of a base transaction, their data and the witnesses into a lent buffer. For each list there is a struct of what it is made from, with
// a function that says how long the list is, and 133,117 for all that is longer than a transaction may be, and one that puts it at a place and answers the
// place after it. Where it does not fit nothing is written, and the place that is answered is the one that was given.
#![tactic(auto, using(crate::proofs::Ways::ways))]

mod outputs;
mod outputs_data;
mod witnesses;

pub use outputs::Outputs;
pub use outputs_data::OutputsData;
pub use witnesses::Witnesses;
