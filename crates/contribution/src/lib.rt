// What the peer put in: the growth of output 0, the cells that its inputs spend, and the outputs that it added.
#![tactic(auto)]

mod funded;

ghost use Rattle.std.specs.Prelude.{◌≡◌};
ghost use Rattle.units.specs.Units.{token_count};
ghost use Rattle.transaction.specs.Tx.{tx_at};
ghost use Rattle.rules.specs.Judge.{token_delta, funding_output_delta};
ghost use Rattle.rules.specs.Lines.{verdict};
ghost use Rattle.error.specs.Outcome.{told_by};
ghost use Rattle.rules.specs.Told.{told};
ghost use Rattle.contribution.specs.Account.{grown_by, account_of, contribution_of};

use accounts::{Added, Brought, capacity, token};
use error::Refusal;
use funded::Funded;
use rules::{Surplus, Update};
use units::{Figure, Shannons, Tokens};

// By how much output 0 grows, in tokens only where a type is expected.
#[derive(Clone, Copy, Debug, PartialEq, Eq, Hash)]
struct Growth {
    capacity: Shannons,
    token: Tokens,
}

// Our transaction and the peer's, and the token type that is expected (empty for none).
#[derive(Clone, Copy, Debug, PartialEq, Eq)]
struct Both<'a> {
    ours: Funded<'a>,
    peer: Funded<'a>,
    udt: &'a [u8],
}

impl Both<'_> {
    // By how many tokens output 0 grows: 5 where an amount can't be read, or it falls.
    fn token_delta(self) -> Result<Tokens, Refusal>
        ensures { told_by token_count result ≡ verdict (token_delta (tx_at self.entry.ours.tx.now) (tx_at self.entry.peer.tx.now)) }
    {
        let a = self
            .ours
            .first_amount()
            .ok_or(Refusal::InvalidPeerFundingTx)?;
        let b = self
            .peer
            .first_amount()
            .ok_or(Refusal::InvalidPeerFundingTx)?;
        b.checked_sub(a).ok_or(Refusal::InvalidPeerFundingTx)
    }

    // How much it grows: it and its data are there, and neither figure falls.
    fn funding_output_delta(self) -> Result<Growth, Refusal>
        ensures { told_by grown_by result ≡ verdict (funding_output_delta self.entry.udt.now (tx_at self.entry.ours.tx.now) (tx_at self.entry.peer.tx.now)) }
    {
        if !self.peer.has_first() {
            return Err(Refusal::InvalidPeerFundingTx);
        }
        let a = self.ours.first_capacity();
        let b = self.peer.first_capacity();
        let capacity = b.checked_sub(a).ok_or(Refusal::InvalidPeerFundingTx)?;
        if self.udt.is_empty() {
            return Ok(Growth {
                capacity,
                token: Tokens::ZERO,
            });
        }
        let token = self.token_delta()?;
        Ok(Growth { capacity, token })
    }

    // The account of an update in which output 0 has grown by so much: what is left of what the records brought in over the growth and the outputs that the
    // peer added, in capacity and in tokens.
    fn account(self, rate: u64, brought: Brought, growth: Growth) -> Update
        ensures { told result ≡ verdict (account_of self.entry rate brought growth) }
    {
        let Both { ours, peer, udt } = self;
        let opening = ours.is_unfunded();
        let size = limits::serialized_size_in_block(peer.tx);
        let added = Added {
            outputs: peer.outputs,
            entries: peer.entries,
            first: accounts::added_peer_outputs(ours.outputs),
        };
        let capacity = capacity::surplus(
            opening,
            brought.capacity,
            growth.capacity,
            added,
            rate,
            size,
        )?;
        let token = token::surplus(udt, brought.token, growth.token, added)?;
        Ok(Surplus { capacity, token })
    }
}

// What is left of what the records brought in, in capacity and in tokens, over the growth of output 0 and the outputs that the peer added; where ours is still
// empty it has to pay the fee.
pub fn verify_peer_funding_contribution(
    ours: &[u8],
    peer: &[u8],
    udt: &[u8],
    rate: u64,
    brought: Brought,
) -> Update
    ensures { told result ≡ verdict (contribution_of udt.now ours.now peer.now brought rate) }
{
    // taken anew, a slice comes in as its two words, and not by way of memory
    let both = Both {
        ours: Funded::of(&ours[0..ours.len()]),
        peer: Funded::of(&peer[0..peer.len()]),
        udt: &udt[0..udt.len()],
    };
    let growth = both.funding_output_delta()?;
    both.account(rate, brought, growth)
}
