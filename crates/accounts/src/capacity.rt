// The capacity account.
ghost use Rattle.std.specs.Prelude.{◌≡◌, ◌+◌, ◌^◌, ◌<◌};
ghost use Rattle.units.specs.Units.{shannon_count};
ghost use Rattle.rules.specs.Records.{record_cell};
ghost use Rattle.rules.specs.Surplus.{total, cell_capacity};
ghost use Rattle.rules.specs.Judge.{covered};
ghost use Rattle.rules.specs.Lines.{verdict};
ghost use Rattle.error.specs.Outcome.{told_by};
ghost use Rattle.accounts.specs.Added.{added_cells};

use crate::Added;
use arithmetic::amount;
use error::Refusal;
use transaction::fields;
use units::{Figure, Shannons};

// The capacity of a record's cell.
pub fn record_capacity(resolved: &[u8]) -> Shannons
    ensures result_value { shannon_count result ≡ cell_capacity (record_cell resolved.now) }
    ensures result_bound { shannon_count result < 2 ^ 64 }
{
    let o = fields::record_output(resolved);
    fields::capacity(o)
}

impl Added<'_> {
    // The capacity of these outputs; their data counts nothing. A sum of fewer than 2^32 capacities is far from the greatest amount.
    fn capacity(self) -> Shannons
        ensures { shannon_count result ≡ total cell_capacity (added_cells self.entry) }
    {
        let n = molecule::item_count(self.outputs) as usize;
        let mut sum = Shannons::ZERO;
        for i in self.first..n {
            let o = molecule::item(self.outputs, i);
            let x = fields::capacity(o);
            sum = sum.saturating_add(x);
        }
        sum
    }
}

// What is left of what the records brought in over growth and added outputs, which pays the fee where ours is still empty.
fn cover(
    opening: bool,
    gained: Shannons,
    grown: Shannons,
    put: Shannons,
    rate: u64,
    size: u64,
) -> Result<Shannons, Refusal>
    ensures { told_by shannon_count result ≡ verdict (covered opening (shannon_count gained) (shannon_count grown + shannon_count put) rate size) }
{
    let rest = gained
        .checked_sub(grown)
        .ok_or(Refusal::InvalidPeerFundingTx)?;
    let left = rest.checked_sub(put).ok_or(Refusal::InvalidPeerFundingTx)?;
    if !opening {
        return Ok(left);
    }
    let fee = units::fee::required_fee(rate, size);
    if left < fee {
        return Err(Refusal::PeerFundingFeeTooLow {
            peer_fee: amount::capped_u64(left.0),
            required_fee: amount::capped_u64(fee.0),
            funding_fee_rate: rate,
            tx_size: size,
        });
    }
    Ok(left)
}

// The surplus in capacity of what was gained, with output 0 grown by so much and these outputs added.
pub fn surplus(
    opening: bool,
    gained: Shannons,
    grown: Shannons,
    added: Added<'_>,
    rate: u64,
    size: u64,
) -> Result<Shannons, Refusal>
    ensures { told_by shannon_count result
        ≡ verdict (covered opening (shannon_count gained) (shannon_count grown + total cell_capacity (added_cells added.entry)) rate size) }
{
    let put = added.capacity();
    cover(opening, gained, grown, put, rate, size)
}
