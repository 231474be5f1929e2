// Runs recorded negotiations through the library, each update against the bytes that the one before handed back. They come on standard input, in
// the form that tools/recorded_updates.py describes. An update is wrong if the library answers it otherwise than the Rust, in number, values or
// surpluses; a negotiation is wrong if its surpluses do not sum to the recorded sums, or other bytes are in force at its end.
#![tactic(auto)]

use arithmetic::little_endian;
use molecule::write;
use recorded_calls::{InfallibleReplay, Items, Printed};
use rules::{Surplus, Update};
use std::fmt;
use std::fmt::Write;
use units::{Shannons, Tokens};

// How long a part is at most: in the longest one transaction is over the limit of size.
const LONGEST: usize = 140_000;

// How long an answer is at most as it is recorded.
const ANSWER_BYTES: usize = 33;

// ---- what is recorded

#[derive(Clone, Copy, Debug, PartialEq, Eq)]
struct Negotiation<'a> {
    start: &'a [u8],
    lock: &'a [u8],
    udt: &'a [u8],
    updates: &'a [u8],
    surplus: Surplus,
    // The number of the update whose transaction is in force at the end, from 1, and 0 for the start.
    in_force: u32,
}

impl<'a> From<&'a [u8]> for Negotiation<'a> {
    fn from(part: &'a [u8]) -> Negotiation<'a> {
        let sums = molecule::field(part, 6, 4);
        Negotiation {
            start: molecule::field(part, 6, 0),
            lock: molecule::field(part, 6, 1),
            udt: molecule::field(part, 6, 2),
            updates: molecule::field(part, 6, 3),
            surplus: Surplus {
                capacity: Shannons(recorded_calls::u128_of(sums)),
                token: Tokens(recorded_calls::u128_of(molecule::part(sums, 16, 32))),
            },
            in_force: little_endian::u32_at(molecule::field(part, 6, 5), 0),
        }
    }
}

#[derive(Clone, Copy, Debug, PartialEq, Eq)]
struct Proposal<'a> {
    peer: &'a [u8],
    source: &'a [u8],
    rate: u64,
    records: &'a [u8],
    answer: &'a [u8],
}

impl<'a> From<&'a [u8]> for Proposal<'a> {
    fn from(update: &'a [u8]) -> Proposal<'a> {
        Proposal {
            peer: molecule::field(update, 5, 0),
            source: molecule::field(update, 5, 1),
            rate: little_endian::u64_at(molecule::field(update, 5, 2), 0),
            records: molecule::field(update, 5, 3),
            answer: molecule::field(update, 5, 4),
        }
    }
}

impl Proposal<'_> {
    // Whether the Rust panics at it.
    fn is_marked(&self) -> bool {
        little_endian::byte(self.answer, 0) >= 128
    }

    // Whether this is the recorded answer, but for that mark, which only a refusal may have.
    fn has_answer(&self, answer: &[u8]) -> bool {
        let number = little_endian::byte(answer, 0);
        let recorded = little_endian::byte(self.answer, 0);
        (recorded == number || number != 0 && recorded % 128 == number)
            && molecule::part(self.answer, 1, self.answer.len())
                == molecule::part(answer, 1, answer.len())
    }
}

// ---- what the library answers

// The sum of two surpluses, capped where it is more than any recorded sum.
fn sum(x: Surplus, y: Surplus) -> Surplus {
    Surplus {
        capacity: x.capacity.saturating_add(y.capacity),
        token: Tokens(x.token.0.saturating_add(y.token.0)),
    }
}

// Puts an answer as it is recorded: its number and each of its values, or 0 and the surpluses. It answers how long that is.
fn put_recorded(out: &mut [u8], update: Update) -> usize {
    match update {
        Ok(surplus) => {
            let at = write::put(out, 0, &[0]);
            let at = write::put(out, at, &surplus.capacity.0.to_le_bytes());
            write::put(out, at, &surplus.token.0.to_le_bytes())
        }
        Err(refusal) => {
            let mut at = write::put(out, 0, &[refusal.number()]);
            for i in 0..refusal.value_count() {
                at = write::put_u64(out, at, refusal.value(i));
            }
            at
        }
    }
}

// ---- the negotiations

#[derive(Debug, Drop, PartialEq, Eq)]
struct Negotiations {
    all: u64,
    updates: u64,
    accepted: u64,
    panics: u64,
    wrong: u64,
}

impl Negotiations {
    fn new() -> Negotiations {
        Negotiations {
            all: 0,
            updates: 0,
            accepted: 0,
            panics: 0,
            wrong: 0,
        }
    }

    fn judge(&mut self, right: bool) {
        self.wrong = self.wrong.saturating_add(u64::from(!right));
    }

    // Judges a proposal against what is in force, and hands back the surplus of one that is accepted.
    fn propose(
        &mut self,
        negotiation: &Negotiation<'_>,
        ours: &[u8],
        proposal: &Proposal<'_>,
    ) -> Option<Surplus> {
        let update = funding_tx::update_for_peer(
            ours,
            proposal.peer,
            negotiation.lock,
            negotiation.udt,
            proposal.source,
            proposal.rate,
            proposal.records,
        );
        self.updates = self.updates.saturating_add(1);
        self.panics = self.panics.saturating_add(u64::from(proposal.is_marked()));
        let mut answer = [0; ANSWER_BYTES];
        let n = put_recorded(&mut answer, update);
        self.judge(proposal.has_answer(molecule::part(&answer, 0, n)));
        self.accepted = self.accepted.saturating_add(u64::from(update.is_ok()));
        let in_force = if update.is_ok() { proposal.peer } else { ours };
        self.judge(funding_tx::in_force(update, ours, proposal.peer) == in_force);
        update.ok()
    }
}

impl InfallibleReplay for Negotiations {
    fn part(&mut self, part: &[u8]) {
        let negotiation = Negotiation::from(part);
        let mut ours = negotiation.start;
        let mut total = Surplus::default();
        let mut in_force = 0u32;
        let mut number = 0u32;
        for item in Items::of(negotiation.updates) {
            let proposal = Proposal::from(item);
            number = number.saturating_add(1);
            if let Some(surplus) = self.propose(&negotiation, ours, &proposal) {
                total = sum(total, surplus);
                ours = proposal.peer;
                in_force = number;
            }
        }
        self.judge(total == negotiation.surplus && in_force == negotiation.in_force);
        self.all = self.all.saturating_add(1);
    }
}

impl fmt::Display for Negotiations {
    fn fmt<W: fmt::Write>(&self, f: &mut fmt::Formatter<W>) -> fmt::Result {
        write!(
            f,
            "{} negotiations, {} updates, of which {} are accepted and the Rust panics at {}, {} wrong",
            self.all, self.updates, self.accepted, self.panics, self.wrong
        )
    }
}

fn main() {
    let mut room = recorded_calls::zeros::<LONGEST>();
    let mut negotiations = Negotiations::new();
    recorded_calls::each_sparse_stdin_part(&mut room, &mut negotiations);
    let _ = writeln!(Printed, "{negotiations}");
}
