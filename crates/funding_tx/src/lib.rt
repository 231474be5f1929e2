// A peer's update of the funding transaction: judged, and what is then in force.
#![tactic(auto, using(crate::proofs::Ways::ways))]

ghost use Rattle.std.specs.Prelude.{◌≡◌};
ghost use Rattle.transaction.specs.Tx.{tx_at};
ghost use Rattle.rules.specs.Judge.{judge, judge_against};
ghost use Rattle.rules.specs.Told.{told, in_force_of};
ghost use Rattle.rules.specs.Run.{handed_back, next, update_for_peer};

use error::Refusal;
use rules::Update;

// Judges the peer's transaction against ours (empty for none) by every check but the first, that our own bytes are readable: for a caller who knows that of
// them already. Its time does not grow with the length of ours. Bytes of ours that can't be read count as what is found in them by their offsets.
pub fn judge_against(
    ours: &[u8],
    peer: &[u8],
    lock: &[u8],
    udt: &[u8],
    source: &[u8],
    rate: u64,
    records: &[u8],
) -> Update
    ensures { told result
        ≡ judge_against lock.now udt.now (tx_at ours.now) (record { peer = peer.entry.now; records = records.now; source = source.now; rate = rate }) }
{
    // taken anew, a slice comes in as its two words, and not by way of memory
    let ours = &ours[0..ours.len()];
    let peer = &peer[0..peer.len()];
    let lock = &lock[0..lock.len()];
    let udt = &udt[0..udt.len()];
    let source = &source[0..source.len()];
    let records = &records[0..records.len()];
    if !transaction::is_transaction(peer) {
        return Err(Refusal::PeerTransactionUnreadable);
    }
    if !transaction::are_scripts(lock, udt, source) {
        return Err(Refusal::LentBytesUnreadable);
    }
    if !limits::validate_peer_funding_tx_complexity(limits::TODAY, ours, peer) {
        return Err(Refusal::PeerFundingTxExceedsLimit);
    }
    if !comparison::keeps_ours(ours, peer, lock, udt) {
        return Err(Refusal::InvalidPeerFundingTx);
    }
    let brought = records::resolve(ours, peer, source, udt, records)?;
    contribution::verify_peer_funding_contribution(ours, peer, udt, rate, brought)
}

// Judges the peer's transaction against ours (empty for none), under the expected funding lock, the expected token type (empty for none), our source lock
// and a fee rate, over one record for each input that the peer added. Nothing that is lent is changed or copied. The parameters are those of the C interface,
// which lends each apart, here and in the functions that are this call without its first check and with its answer.
pub fn update_for_peer(
    ours: &[u8],
    peer: &[u8],
    lock: &[u8],
    udt: &[u8],
    source: &[u8],
    rate: u64,
    records: &[u8],
) -> Update
    ensures { told result ≡ judge lock.now udt.now ours.now (record { peer = peer.entry.now; records = records.now; source = source.now; rate = rate }) }
{
    if !transaction::is_optional_transaction(ours) {
        return Err(Refusal::OurTransactionUnreadable);
    }
    judge_against(ours, peer, lock, udt, source, rate, records)
}

// The transaction in force after an answer: the peer's bytes after an acceptance, ours after a refusal.
pub fn in_force<'a>(update: Update, ours: &'a [u8], peer: &'a [u8]) -> &'a [u8]
    ensures reference { result ≡ in_force_of update ours.entry peer.entry }
    ensures bytes { result.now ≡ in_force_of update ours.now peer.now }
{
    match update {
        Ok(_) => peer,
        Err(_) => ours,
    }
}

// A whole call: judges the peer's update and hands back the transaction that is then in force, for a caller who needs no more of the answer.
pub fn next_in_force<'a>(
    ours: &'a [u8],
    peer: &'a [u8],
    lock: &[u8],
    udt: &[u8],
    source: &[u8],
    rate: u64,
    records: &[u8],
) -> &'a [u8]
    ensures reference { result
        ≡ handed_back (judge lock.now udt.now ours.now
        (record { peer = peer.entry.now; records = records.now; source = source.now; rate = rate })) ours.entry peer.entry }
    ensures bytes { result.now
        ≡ next (update_for_peer lock.now udt.now) ours.now (record { peer = peer.entry.now; records = records.now; source = source.now; rate = rate }) }
{
    let update = update_for_peer(ours, peer, lock, udt, source, rate, records);
    in_force(update, ours, peer)
}
