// The two accounts of an update, in capacity and in the expected token: what is left of what the peer's added inputs bring in over the growth of output 0 and
// the outputs that it added.
#![tactic(auto, using(crate::proofs::Ways::ways))]

pub mod capacity;
pub mod token;

ghost use Rattle.std.specs.Prelude.{◌≡◌, max};
ghost use Rattle.std.specs.Option.{option_map};
ghost use Rattle.arithmetic.specs.Amount.{amount_at};
ghost use Rattle.units.specs.Units.{in_tokens};
ghost use Rattle.molecule.specs.Layout.{item_count};

use error::Refusal;
use units::{Shannons, Tokens};

// What the records of the added inputs bring in, live cells that are not ours.
#[derive(Clone, Copy, Debug, PartialEq, Eq, Hash)]
pub struct Brought {
    pub capacity: Shannons,
    /// The sum of the tokens, or why there is none. Untyped it means nothing, and nobody looks at it.
    pub token: Result<Tokens, Refusal>,
}

// The outputs that the peer added: those of a list from index `first` on, with their entries in a list of data.
#[derive(Clone, Copy, Debug, PartialEq, Eq, Hash)]
pub struct Added<'a> {
    pub outputs: &'a [u8],
    pub entries: &'a [u8],
    pub first: usize,
}

// The token amount that a cell's data begins with (RFC 0025).
pub fn read_udt_amount(d: &[u8]) -> Option<Tokens>
    ensures { result ≡ option_map in_tokens (amount_at d.now) }
{
    Tokens::from_le_bytes(d)
}

// The index of the first output that the peer added, by the list of our outputs: from their count on, never 0.
pub fn added_peer_outputs(outputs: &[u8]) -> usize
    ensures { result ≡ max 1 (item_count outputs.now) }
{
    (molecule::item_count(outputs) as usize).max(1)
}
