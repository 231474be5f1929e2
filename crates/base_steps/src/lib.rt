// `build_base` with, beside its own contract, that what is proved of its definition (crates base_theorems and base_compared) holds of the bytes that it leaves
// in the lent buffer.
#![tactic(auto)]

ghost use Rattle.std.specs.Prelude.{◌≡◌, ℕ, take, Ok};
ghost use Rattle.error.specs.Outcome.{told};
ghost use Rattle.transaction_writer.specs.Written.{written};
ghost use Rattle.funding_builder.specs.Base.{build_base};
ghost use Rattle.funding_builder.specs.Lent.{lent_in};
ghost use Rattle.base_compared.proofs.Claims.{Based};

use funding_builder::Lent;
use funding_cell::FundingRequest;
use transaction_writer::Written;

pub fn build_base(lent: &Lent, request: FundingRequest, out: &mut [u8]) -> Written
    ensures out_after { (told result, out.new) ≡ written (build_base (lent_in lent.now) request) out.old }
    ensures by_index { (n : ℕ) → result ≡ Ok n → Based (lent_in lent.now) request (take n out.new) }
{
    transaction_writer::are_bytes(lent.ours);
    let answer = funding_builder::build_base(lent, request, out);
    transaction_writer::are_bytes(out);
    answer
}
