// A negotiation: a lent list of updates, each judged against the transaction that the one before it left in force.
#![tactic(auto, using(crate::proofs::Ways::ways))]

ghost use Rattle.std.specs.Prelude.{◌≡◌, ◌+◌, ◌*◌, ◌≤◌, length, Ok};
ghost use Rattle.molecule.specs.Molecule.{option, readable};
ghost use Rattle.molecule.specs.Layout.{inside, item_count};
ghost use Rattle.molecule.specs.Write.{splice};
ghost use Rattle.transaction.specs.Ckb.{Transaction};
ghost use Rattle.rules.specs.Judge.{judge};
ghost use Rattle.error.specs.Outcome.{fine};
ghost use Rattle.rules.specs.Told.{told, in_force_of};
ghost use Rattle.rules.specs.Run.{verdicts, update_for_peer};
ghost use Rattle.negotiation.specs.Updates.{Updates, field_bytes, bytes_start, rate_of, call_at, calls_of, transaction_at, transaction_place};
ghost use Rattle.negotiation.specs.Words.{update_words};
ghost use Rattle.negotiation.specs.Replay.{replay_of, after_replay, told_replay};

use arithmetic::little_endian;
use error::Refusal;
use rules::Update;

mod entities;

// What a list of updates came to: how many they were, how many were accepted, and which transaction is then in force: 0 for the one at the start, k + 1 for
// that of update k. That is a number and no Option, as it crosses to C.
#[derive(Clone, Copy, Debug, PartialEq, Eq, Hash)]
pub struct Summary {
    pub updates: usize,
    pub accepted: usize,
    pub at: usize,
}

pub type Replayed = Result<Summary, Refusal>;

// ---- the form of the list

// Whether s is a list of updates.
pub fn is_updates(s: &[u8]) -> bool
    ensures { result ≡ readable Updates s.now }
{
    molecule::is_dynvec_of::<entities::Update>(s)
}

// The bytes of field j of update i. It takes the list alone, as `transaction_at` does, which asks its callers for no lock and type: those go with it into the
// `Negotiation`.
fn bytes(updates: &[u8], i: usize, j: usize) -> &[u8]
    ensures result_value { result.now ≡ field_bytes updates.now i j }
    ensures ref_ptr_value { result.ref_ptr ≡ inside updates.entry.ref_ptr (bytes_start updates.now i j) }
{
    let update = molecule::item(updates, i);
    let f = molecule::field(update, 4, j);
    molecule::content(f)
}

// The fee rate of update i.
fn rate(updates: &[u8], i: usize) -> u64
    ensures { result ≡ rate_of updates.now i }
{
    let update = molecule::item(updates, i);
    let f = molecule::field(update, 4, 3);
    little_endian::u64_at(f, 0)
}

// The transaction with this index, where it was lent: 0 is the one at the start, k + 1 that of update k.
pub fn transaction_at<'a>(start: &'a [u8], updates: &'a [u8], at: usize) -> &'a [u8]
    ensures result_value { result.now ≡ transaction_at start.now updates.now at }
    ensures ref_ptr_value { result.ref_ptr ≡ transaction_place start.entry.ref_ptr updates.entry.ref_ptr updates.now at }
{
    if at == 0 {
        return start;
    }
    bytes(updates, at - 1, 0)
}

// ---- one answer

// Copies words to `at`, where there is room.
fn copy(answers: &mut [u64], at: usize, words: &[u64])
    requires { at + length words.now ≤ length answers.old }
    ensures { answers.new ≡ splice answers.old at words.now }
{
    answers[at..at + words.len()].copy_from_slice(words);
}

// Writes the words of an answer to `at`, where there is room for five.
fn put_words(answers: &mut [u64], at: usize, update: Update)
    requires { at + 5 ≤ length answers.old }
    ensures { answers.new ≡ splice answers.old at (update_words (told update)) }
{
    let mut four = [0u64; 4];
    let number = u64::from(words::tell_update(update, &mut four));
    let five = [number, four[0], four[1], four[2], four[3]];
    copy(answers, at, &five);
}

// Which of two goes with an answer: the second after an acceptance, the first after a refusal. `funding_tx::in_force` is the same of slices: one function for
// both would be no plainer, as it would not say of slices that the bytes go with the answer too.
fn after(update: Update, ours: usize, peer: usize) -> usize
    ensures { result ≡ in_force_of update ours peer }
{
    match update {
        Ok(_) => peer,
        Err(_) => ours,
    }
}

// ---- the negotiation

// The transaction at its start, the expected lock and type, and the list of updates.
#[derive(Clone, Copy, Debug, PartialEq, Eq)]
pub struct Negotiation<'a> {
    pub start: &'a [u8],
    pub lock: &'a [u8],
    pub udt: &'a [u8],
    pub updates: &'a [u8],
}

impl Negotiation<'_> {
    // Judges update i against the transaction with index `at`, of which it is known whether it is readable: that is not read again, and the time goes by the
    // update's own bytes.
    fn judge_at(self, known: bool, at: usize, i: usize) -> Update
        requires { known ≡ readable (option Transaction) (transaction_at self.start.now self.updates.now at) }
        ensures { told result
            ≡ judge self.entry.lock.now self.entry.udt.now (transaction_at self.entry.start.now self.entry.updates.now at) (call_at self.entry.updates.now i) }
    {
        if !known {
            return Err(Refusal::OurTransactionUnreadable);
        }
        let ours = transaction_at(self.start, self.updates, at);
        let peer = bytes(self.updates, i, 0);
        let records = bytes(self.updates, i, 1);
        let source = bytes(self.updates, i, 2);
        let rate = rate(self.updates, i);
        funding_tx::judge_against(ours, peer, self.lock, self.udt, source, rate, records)
    }

    // Judges the updates one after another. The start is read once: where it is readable so is every transaction that is accepted after it, and where it is not
    // none is accepted.
    fn judge_all(self, answers: &mut [u64]) -> Summary
        requires { 5 * item_count self.updates.now ≤ length answers.old }
        ensures { (told_replay (Ok result), answers.new)
            ≡ after_replay (fine (verdicts (update_for_peer self.entry.lock.now self.entry.udt.now) self.entry.start.now (calls_of self.entry.updates.now)))
            answers.old }
    {
        let n = molecule::item_count(self.updates) as usize;
        let known = transaction::is_optional_transaction(self.start);
        let mut at = 0;
        let mut accepted = 0;
        for i in 0..n {
            let update = self.judge_at(known, at, i);
            put_words(answers, 5 * i, update);
            at = after(update, at, i + 1);
            accepted = after(update, accepted, accepted + 1);
        }
        Summary {
            updates: n,
            accepted,
            at,
        }
    }

    // Judges the updates, each against the transaction that the one before it left in force, under one expected lock and type. For update k, five words of
    // `answers` from 5 k on are its number (0: accepted) and its values, or the halves of its surpluses. Refused, before any update is judged: 3 where
    // `updates` is no list of updates, 13 where `answers` has fewer than five words for each.
    pub fn replay(self, answers: &mut [u64]) -> Replayed
        ensures { (told_replay result, answers.new)
            ≡ after_replay (replay_of self.entry.lock.now self.entry.udt.now self.entry.start.now self.entry.updates.now (length answers.old)) answers.old }
    {
        if !is_updates(self.updates) {
            return Err(Refusal::LentBytesUnreadable);
        }
        let n = molecule::item_count(self.updates) as usize;
        if answers.len() / 5 < n {
            return Err(Refusal::BufferTooShort);
        }
        Ok(self.judge_all(answers))
    }
}
