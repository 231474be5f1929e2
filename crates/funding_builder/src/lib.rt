// The base transaction of our own side: the funding cell, the tokens that we bring, and what the present transaction has already.
#![tactic(auto, using(crate::proofs::Ways::ways), unfolding(crate::proofs::Ways::building))]

mod assemble;

ghost use Rattle.std.specs.Prelude.{◌≡◌, true, ◌<◌};
ghost use Rattle.units.specs.Units.{token_count};
ghost use Rattle.molecule.specs.Molecule.{readable, option};
ghost use Rattle.transaction.specs.Ckb.{CellDep, CellDeps};
ghost use Rattle.error.specs.Outcome.{check, told};
ghost use Rattle.transaction_writer.specs.Written.{written};
ghost use Rattle.funding_cell.specs.FundingCell.{figures_of};
ghost use Rattle.udt_cells.specs.Pick.{pick_of};
ghost use Rattle.funding_builder.specs.Base.{lists, supplied, with_pick, with_cell, with_request, build_base};
ghost use Rattle.funding_builder.specs.Lent.{lent_in};
ghost use Rattle.funding_builder.specs.Steps.{Readable};

use assemble::Assembly;
use error::Refusal;
use funding_cell::{FundingCell, FundingRequest};
use transaction::fields;
use transaction_writer::Written;
use udt_cells::Picked;
use units::Tokens;

// Whether the bytes are a list of cell deps, or nothing. By hand, here and below: `Option::<T>::is` needs a type and an impl of `Entity` for each of the two,
// which is longer than both tests.
fn is_optional_cell_deps(s: &[u8]) -> bool
    ensures { result ≡ readable (option CellDeps) s.now }
{
    s.is_empty() || transaction::is_cell_deps(s)
}

// Whether the bytes are a cell dep, or nothing.
fn is_optional_cell_dep(s: &[u8]) -> bool
    ensures { result ≡ readable (option CellDep) s.now }
{
    s.is_empty() || s.len() == 37
}

// Whether deps are supplied where tokens were picked.
fn is_supplied(taken: usize, deps: &[u8]) -> bool
    ensures { result ≡ supplied taken deps.now }
{
    taken == 0 || !deps.is_empty()
}

// What a call is lent: our present transaction (empty for none), the funding lock, the type (empty for none), our source lock, token cells, and the deps of
// the token and of our lock, which are needed where cells are picked (empty: not supplied), and the extra ones.
#[derive(Clone, Copy, Debug, PartialEq, Eq)]
pub struct Lent<'a> {
    pub ours: &'a [u8],
    pub lock: &'a [u8],
    pub udt: &'a [u8],
    pub source: &'a [u8],
    pub cells: &'a [u8],
    pub udt_deps: &'a [u8],
    pub lock_dep: &'a [u8],
    pub extra_deps: &'a [u8],
}

impl<'a> Lent<'a> {
    // Whether the lent lists are readable; the refusal is 3. A `bool`, and no `Result`, as four tests have one refusal (docs/PROVING.md, "A chain of checks
    // with one number").
    fn are_lists(&self) -> bool
        ensures { check 3 result ≡ lists self.now.cells.now self.now.udt_deps.now self.now.lock_dep.now self.now.extra_deps.now }
    {
        transaction::is_token_cells(self.cells)
            && is_optional_cell_deps(self.udt_deps)
            && is_optional_cell_dep(self.lock_dep)
            && transaction::is_cell_deps(self.extra_deps)
    }

    // Assembles the base transaction behind the pick; 11 where tokens were picked and deps are missing.
    fn with_pick(&self, cell: FundingCell, picked: Picked, out: &mut [u8]) -> Written
        requires { Readable (lent_in self.now) }
        ensures { (told result, out.new) ≡ written (with_pick (lent_in self.now) (figures_of cell) (pick_of picked)) out.old }
    {
        if !is_supplied(picked.taken, self.udt_deps) {
            return Err(Refusal::MissingCellDep);
        }
        if !is_supplied(picked.taken, self.lock_dep) {
            return Err(Refusal::MissingCellDep);
        }
        let assembly = Assembly {
            lent: *self,
            cell,
            picked,
        };
        assembly.write(out)
    }

    // Picks token cells for the wanted amount, and writes the base transaction.
    fn with_cell(&self, cell: FundingCell, wanted: Tokens, out: &mut [u8]) -> Written
        requires { Readable (lent_in self.now) }
        ensures { (told result, out.new) ≡ written (with_cell (lent_in self.now) (figures_of cell) (token_count wanted)) out.old }
    {
        let picked = udt_cells::pick_typed(self.cells, self.udt, wanted)?;
        self.with_pick(cell, picked, out)
    }

    // Makes the funding cell of the request, and goes on from it.
    fn with_request(&self, request: FundingRequest, out: &mut [u8]) -> Written
        requires { Readable (lent_in self.now) }
        ensures { (told result, out.new) ≡ written (with_request (lent_in self.now) request) out.old }
    {
        let funded = fields::output_count(self.ours) != 0;
        let typed = !self.udt.is_empty();
        let cell = funding_cell::funding_cell(funded, typed, request)?;
        let local_amount = request.local_amount;
        self.with_cell(cell, Tokens(local_amount), out)
    }
}

// Writes the base transaction of a request to the start of out: our present transaction with the funding cell under the funding lock, of the type, the
// token cells that are picked for the local amount, and the change under our source lock. Refused, and out as it was: 1, 3, 7, 12, 10, 9, 11, 13.
pub fn build_base(lent: &Lent, request: FundingRequest, out: &mut [u8]) -> Written
    ensures { (told result, out.new) ≡ written (build_base (lent_in lent.now) request) out.old }
{
    if !transaction::is_optional_transaction(lent.ours) {
        return Err(Refusal::OurTransactionUnreadable);
    }
    if !transaction::are_scripts(lent.lock, lent.udt, lent.source) {
        return Err(Refusal::LentBytesUnreadable);
    }
    if !lent.are_lists() {
        return Err(Refusal::LentBytesUnreadable);
    }
    lent.with_request(request, out)
}
