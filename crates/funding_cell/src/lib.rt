// The funding cell that both sides pay into: its capacity and its token amount.
#![tactic(auto, using(crate::proofs::Ways::ways), unfolding(crate::specs::FundingCell::request_counted, crate::specs::FundingCell::reserves, crate::specs::FundingCell::cell_of, crate::specs::FundingCell::cell_of_sums, crate::specs::FundingCell::funding_cell, crate::specs::FundingCell::build_funding_cell, error::specs::Outcome::check, error::specs::Outcome::check_with, error::specs::Outcome::given, error::specs::Refusal::number, error::specs::Refusal::values, arithmetic::specs::Amount::sum))]

ghost use Rattle.std.specs.Prelude.{◌≡◌, true, false};
ghost use Rattle.units.specs.Units.{shannon_count, token_count};
ghost use Rattle.error.specs.Outcome.{told_by};
ghost use Rattle.funding_cell.specs.FundingCell.{figures_of, request_counted, reserves, cell_of, funding_cell, build_funding_cell};

use error::Refusal;
use transaction::fields;
use units::{Figure, Shannons, Tokens};

// What each side is to bring: an amount, of shannons where the channel is untyped and else of the token, and a reserve in shannons.
#[derive(Clone, Copy, Debug, Default, PartialEq, Eq, Hash)]
pub struct FundingRequest {
    pub local_amount: u128,
    pub local_reserved_ckb_amount: Shannons,
    pub remote_amount: u128,
    pub remote_reserved_ckb_amount: Shannons,
}

// The capacity is below 2^64; the token amount is 0 when untyped.
#[derive(Clone, Copy, Debug, PartialEq, Eq, Hash)]
pub struct FundingCell {
    pub capacity: Shannons,
    pub token: Tokens,
}

// The request with the figures that count: those of the remote side are 0 while the present transaction has no outputs.
fn counted(funded: bool, request: FundingRequest) -> FundingRequest
    ensures { result ≡ request_counted funded request }
{
    if funded {
        return request;
    }
    FundingRequest {
        local_amount: request.local_amount,
        local_reserved_ckb_amount: request.local_reserved_ckb_amount,
        remote_amount: 0,
        remote_reserved_ckb_amount: Shannons::ZERO,
    }
}

// A cell of so many shannons and tokens, if its capacity is a number of 64 bits.
fn cell_of(capacity: Shannons, token: Tokens) -> Result<FundingCell, Refusal>
    ensures { told_by figures_of result ≡ cell_of (shannon_count capacity) (token_count token) }
{
    if capacity > Shannons::from(u64::MAX) {
        return Err(Refusal::OverflowError);
    }
    Ok(FundingCell { capacity, token })
}

// The reserves of both sides, which are capacity in either kind of channel.
fn reserves(request: FundingRequest) -> Option<Shannons>
    ensures { result ≡ reserves request }
{
    request
        .local_reserved_ckb_amount
        .checked_add(request.remote_reserved_ckb_amount)
}

// The cell where all figures of the request count. Typed, the reserves are its capacity, and amounts are tokens.
fn typed_cell(request: FundingRequest) -> Result<FundingCell, Refusal>
    ensures { told_by figures_of result ≡ funding_cell true true request }
{
    let capacity = reserves(request).ok_or(Refusal::OverflowError)?;
    let token = Tokens(request.local_amount)
        .checked_add(Tokens(request.remote_amount))
        .ok_or(Refusal::OverflowError)?;
    cell_of(capacity, token)
}

// Untyped, amounts are capacity too.
fn untyped_cell(request: FundingRequest) -> Result<FundingCell, Refusal>
    ensures { told_by figures_of result ≡ funding_cell true false request }
{
    let reserved = reserves(request).ok_or(Refusal::OverflowError)?;
    let amounts = Shannons(request.local_amount)
        .checked_add(Shannons(request.remote_amount))
        .ok_or(Refusal::OverflowError)?;
    let capacity = amounts.checked_add(reserved).ok_or(Refusal::OverflowError)?;
    cell_of(capacity, Tokens::ZERO)
}

// The cell of a request, by whether the present transaction has outputs, and whether the channel is typed; refused with 7 where a figure is too wide.
pub fn funding_cell(
    funded: bool,
    typed: bool,
    request: FundingRequest,
) -> Result<FundingCell, Refusal>
    ensures { told_by figures_of result ≡ funding_cell funded typed request }
{
    let figures = counted(funded, request);
    if typed {
        typed_cell(figures)
    } else {
        untyped_cell(figures)
    }
}

// The same by the lent bytes: our present transaction (empty: none), refused with 1 where it is unreadable, and the type script (empty: untyped), with 3.
pub fn build_funding_cell(
    ours: &[u8],
    udt: &[u8],
    request: FundingRequest,
) -> Result<FundingCell, Refusal>
    ensures { told_by figures_of result ≡ build_funding_cell ours.now udt.now request }
{
    if !transaction::is_optional_transaction(ours) {
        return Err(Refusal::OurTransactionUnreadable);
    }
    if !transaction::is_optional_script(udt) {
        return Err(Refusal::LentBytesUnreadable);
    }
    let funded = fields::output_count(ours) != 0;
    let typed = !udt.is_empty();
    funding_cell(funded, typed, request)
}
