// Complexity budgets for peer-supplied funding transactions: cheap checks that come before any record is looked at.
#![tactic(auto, using(crate::proofs::Ways::ways))]

ghost use Rattle.std.specs.Prelude.{◌≡◌, ◌+◌, ◌-◌, ℕ, List, length};
ghost use Rattle.transaction.specs.Tx.{tx_at};
ghost use Rattle.error.specs.Outcome.{check};
ghost use Rattle.rules.specs.Judge.{within};
ghost use Rattle.rules.specs.Lines.{verdict};

use rules::Limits;
use transaction::fields;

// The greatest size of a peer's funding transaction, in a block.
pub const MAX_PEER_FUNDING_TX_SERIALIZED_SIZE: u64 = 1024 * (128 + 2);

// How many inputs a peer may add beyond the local funding transaction.
pub const MAX_PEER_ADDED_FUNDING_INPUTS: u32 = 64;

// How many outputs a peer may add: the funding cell, token change and capacity change.
pub const MAX_PEER_ADDED_FUNDING_OUTPUTS: u32 = 3;

// How many cell deps a peer may add.
pub const MAX_PEER_ADDED_CELL_DEPS: u32 = 8;

// How many header deps a peer may add; the Rust has no such bound.
pub const MAX_PEER_ADDED_HEADER_DEPS: u32 = 2;

// Today's limits on what a peer may add.
pub const TODAY: Limits = Limits {
    inputs: MAX_PEER_ADDED_FUNDING_INPUTS,
    outputs: MAX_PEER_ADDED_FUNDING_OUTPUTS,
    cell_deps: MAX_PEER_ADDED_CELL_DEPS,
    header_deps: MAX_PEER_ADDED_HEADER_DEPS,
};

// The size of a transaction in a block: its bytes, and the offset that the block's list holds for it.
pub fn serialized_size_in_block(tx: &[u8]) -> u64
    ensures { result ≡ length tx.now + 4 }
{
    tx.len() as u64 + 4
}

// Of what `count` counts in a transaction: how many the peer added; fewer than before count as none.
fn added<'a, F: Fn(&'a [u8]) -> u32>(ours: &'a [u8], peer: &'a [u8], count: F) -> u32
    requires { F.IsAlwaysCallable count }
    ensures { (n : List ℕ → ℕ) → ((s : _) (r : ℕ) → F.post count s r → r ≡ n s.now) → result ≡ n peer.now - n ours.now }
{
    let before = count(ours);
    let after = count(peer);
    after.saturating_sub(before)
}

// How many inputs the peer added.
pub fn added_inputs(ours: &[u8], peer: &[u8]) -> u32
    ensures { result ≡ length (tx_at peer.now).inputs - length (tx_at ours.now).inputs }
{
    added(ours, peer, fields::input_count)
}

// The same for outputs.
fn added_outputs(ours: &[u8], peer: &[u8]) -> u32
    ensures { result ≡ length (tx_at peer.now).outputs - length (tx_at ours.now).outputs }
{
    added(ours, peer, fields::output_count)
}

// And for cell deps.
fn added_cell_deps(ours: &[u8], peer: &[u8]) -> u32
    ensures { result ≡ length (tx_at peer.now).cell_deps - length (tx_at ours.now).cell_deps }
{
    added(ours, peer, fields::cell_dep_count)
}

// And for header deps.
fn added_header_deps(ours: &[u8], peer: &[u8]) -> u32
    ensures { result ≡ length (tx_at peer.now).header_deps - length (tx_at ours.now).header_deps }
{
    added(ours, peer, fields::header_dep_count)
}

// Whether the peer's transaction keeps within the size and these limits; the refusal is 4. A bool is plainer than an `Answer`, which would name the one
// refusal at each of the five exits.
pub fn validate_peer_funding_tx_complexity(most: Limits, ours: &[u8], peer: &[u8]) -> bool
    ensures { check 4 result ≡ verdict (within most (length peer.now + 4) (tx_at ours.now) (tx_at peer.now)) }
{
    if MAX_PEER_FUNDING_TX_SERIALIZED_SIZE < serialized_size_in_block(peer) {
        return false;
    }
    if most.inputs < added_inputs(ours, peer) {
        return false;
    }
    if most.outputs < added_outputs(ours, peer) {
        return false;
    }
    if most.cell_deps < added_cell_deps(ours, peer) {
        return false;
    }
    added_header_deps(ours, peer) <= most.header_deps
}
