// The account of the expected token. A sum of tokens is refused with 5 where an amount is under 16 bytes or too few tokens are brought in, and with 7 where it
// is too wide.
ghost use Rattle.std.specs.Prelude.{◌≡◌, true, List, ℕ};
ghost use Rattle.units.specs.Units.{token_count};
ghost use Rattle.rules.specs.Records.{record_cell};
ghost use Rattle.rules.specs.Surplus.{is_of};
ghost use Rattle.rules.specs.Judge.{Names, of_outputs, counted, tally, settled, token_account};
ghost use Rattle.rules.specs.Lines.{Name, verdict, known};
ghost use Rattle.error.specs.Outcome.{told_by};
ghost use Rattle.accounts.specs.Added.{cell_in, added_cells};
ghost use Rattle.accounts.specs.Inner.{and_record};

use crate::Added;
use error::Refusal;
use transaction::fields;
use units::{Figure, Tokens};

// A sum with the amount of one more cell of the type that is asked for, whatever that is; d is its data.
fn add_amount(d: &[u8], sum: Tokens) -> Result<Tokens, Refusal>
    ensures { (names : Names) (type o : List ℕ) → is_of type (record { output = o; cell_data = d.now }) ≡ true → told_by token_count result
        ≡ verdict (counted names type (token_count sum) (record { output = o; cell_data = d.now })) }
{
    let amount = crate::read_udt_amount(d).ok_or(Refusal::InvalidPeerFundingTx)?;
    sum.checked_add(amount).ok_or(Refusal::OverflowError)
}

// A sum, if there is one so far, with the tokens of a record; a cell of another type may hold any data.
pub fn add_record(
    udt: &[u8],
    resolved: &[u8],
    paid: Result<Tokens, Refusal>,
) -> Result<Tokens, Refusal>
    ensures { told_by token_count result ≡ verdict (and_record udt.now (known (told_by token_count paid)) (record_cell resolved.now)) }
{
    let sum = paid?;
    let o = fields::record_output(resolved);
    let t = fields::type_script(o);
    if !lists::same_script(udt, t) {
        return Ok(sum);
    }
    let d = fields::record_data(resolved);
    add_amount(d, sum)
}

impl Added<'_> {
    // A sum with the tokens of output i.
    fn add_output(self, udt: &[u8], i: usize, sum: Tokens) -> Result<Tokens, Refusal>
        ensures { told_by token_count result
            ≡ verdict (counted of_outputs udt.now (token_count sum) (cell_in self.entry.outputs.now self.entry.entries.now i)) }
    {
        let o = molecule::item(self.outputs, i);
        let t = fields::type_script(o);
        if !lists::same_script(udt, t) {
            return Ok(sum);
        }
        let d = molecule::entry(self.entries, i);
        add_amount(d, sum)
    }

    // The tokens of these outputs.
    fn tokens(self, udt: &[u8]) -> Result<Tokens, Refusal>
        ensures { told_by token_count result ≡ verdict (tally of_outputs udt.now 0 (added_cells self.entry)) }
    {
        let n = molecule::item_count(self.outputs) as usize;
        let mut sum = Tokens::ZERO;
        for i in self.first..n {
            sum = self.add_output(udt, i, sum)?;
        }
        Ok(sum)
    }
}

// What is left of what the records brought in over growth and added outputs.
fn settle(grown: Tokens, put: Tokens, gained: Tokens) -> Result<Tokens, Refusal>
    ensures { told_by token_count result ≡ verdict (settled (token_count grown) (token_count put) (token_count gained)) }
{
    let needed = grown.checked_add(put).ok_or(Refusal::OverflowError)?;
    gained
        .checked_sub(needed)
        .ok_or(Refusal::InvalidPeerFundingTx)
}

// The surplus in tokens of what the records brought in, with output 0 grown by so much and these outputs added; 0 when untyped.
pub fn surplus(
    udt: &[u8],
    paid: Result<Tokens, Refusal>,
    grown: Tokens,
    added: Added<'_>,
) -> Result<Tokens, Refusal>
    ensures { told_by token_count result ≡ verdict (token_account udt.now (token_count grown) (known (told_by token_count paid)) (added_cells added.entry)) }
{
    if udt.is_empty() {
        return Ok(Tokens::ZERO);
    }
    let gained = paid?;
    let put = added.tokens(udt)?;
    settle(grown, put, gained)
}
