// The records of the cells that the peer's added inputs spend, one for each, and what these bring in.
#![tactic(auto, using(crate::proofs::Ways::ways))]

ghost use Rattle.std.specs.Prelude.{◌≡◌, ◌+◌};
ghost use Rattle.molecule.specs.Molecule.{readable};
ghost use Rattle.transaction.specs.Ckb.{Record};
ghost use Rattle.transaction.specs.Tx.{tx_at};
ghost use Rattle.rules.specs.Records.{lent_at, record_cell};
ghost use Rattle.rules.specs.Judge.{has_lock};
ghost use Rattle.error.specs.Outcome.{refusal, told_by};
ghost use Rattle.records.specs.Inner.{or_unreadable, gathered};
ghost use Rattle.records.specs.Resolved.{brought_by, brings};

use accounts::{Brought, capacity, token};
use error::Refusal;
use transaction::fields;
use units::{Shannons, Tokens};

// The cell of a record has our source lock.
fn has_our_lock(source: &[u8], resolved: &[u8]) -> bool
    ensures { result ≡ has_lock source.now (record_cell resolved.now) }
{
    let o = fields::record_output(resolved);
    let l = fields::lock(o);
    lists::same_script(source, l)
}

// Whether a record is readable, as `transaction::is_record` says. That one has a caller of its own, would have two and be compiled into neither: by way of it
// 64 records take a third longer.
// Compiled into the walk below, what was tested is known where the record is read.
#[tactic(auto, using(molecule::proofs::HeaderLaws::pair_is))]
fn is_record(s: &[u8]) -> bool
    ensures { result ≡ readable Record s.now }
{
    molecule::has_items(s, 2)
        && transaction::is_output(molecule::field(s, 2, 0))
        && molecule::is_bytes(molecule::field(s, 2, 1))
}

// Why a record is refused, unless one of them is unreadable.
fn unless_unreadable(records: &[u8], why: Refusal) -> Refusal
    ensures { refusal result ≡ or_unreadable why (lent_at records.now) }
{
    if transaction::is_records(records) {
        why
    } else {
        Refusal::LentBytesUnreadable
    }
}

// One walk reads the records, sees that each is live and not under our source lock, and sums up what they bring in; the first is of input `first` among all.
fn gather(source: &[u8], udt: &[u8], first: u32, records: &[u8]) -> Result<Brought, Refusal>
    ensures { told_by brought_by result ≡ gathered source.now udt.now first (lent_at records.now) }
{
    let Some(count) = molecule::list_header(records) else {
        return Err(Refusal::LentBytesUnreadable);
    };
    let n = count as usize;
    let base = first as usize;
    let mut capacity = Shannons::ZERO;
    let mut token = Ok(Tokens::ZERO);
    let mut from = molecule::start(records, n, 0);
    for i in 0..n {
        let to = molecule::start(records, n, i + 1);
        if to < from {
            return Err(Refusal::LentBytesUnreadable);
        }
        let x = molecule::part(records, from, to);
        if x.is_empty() {
            return Err(unless_unreadable(records, Refusal::InvalidPeerFundingTx));
        }
        if !is_record(x) {
            return Err(Refusal::LentBytesUnreadable);
        }
        if has_our_lock(source, x) {
            let input_index = base + i;
            return Err(unless_unreadable(
                records,
                Refusal::PeerInputUsesOurFundingLock { input_index },
            ));
        }
        capacity = capacity.saturating_add(capacity::record_capacity(x));
        token = token::add_record(udt, x, token);
        from = to;
    }
    Ok(Brought { capacity, token })
}

// What the records bring in, in capacity and in the expected token, if they are readable, one for each added input, live, and none under our source lock.
pub fn resolve(
    ours: &[u8],
    peer: &[u8],
    source: &[u8],
    udt: &[u8],
    records: &[u8],
) -> Result<Brought, Refusal>
    ensures { told_by brought_by result ≡ brings source.now udt.now (tx_at ours.now) (tx_at peer.now) (lent_at records.now) }
{
    let n = molecule::item_count(records);
    if n != limits::added_inputs(ours, peer) {
        return Err(Refusal::LentBytesUnreadable);
    }
    let first = fields::input_count(ours);
    gather(source, udt, first, records)
}
