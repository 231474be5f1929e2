// The answer of `update_for_peer`, and the limits by which it judges. The rules that decide are definitions, in specs/; the law over every list of updates is in
// proofs/.
#![tactic(auto)]

use error::Refusal;
use units::{Shannons, Tokens};

// What an acceptance carries: the surplus in capacity and in the token (0 when untyped).
#[derive(Clone, Copy, Debug, Default, PartialEq, Eq, Hash)]
pub struct Surplus {
    pub capacity: Shannons,
    pub token: Tokens,
}

// The greatest number that a peer may add to our transaction, of each of four lists.
#[derive(Clone, Copy, Debug, PartialEq, Eq, Hash)]
pub struct Limits {
    pub inputs: u32,
    pub outputs: u32,
    pub cell_deps: u32,
    pub header_deps: u32,
}

// A refusal carries its number and values.
pub type Update = Result<Surplus, Refusal>;
