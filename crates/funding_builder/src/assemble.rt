// The base transaction written from its figures: the funding cell, the pick and its change, and what the present transaction has already.
ghost use Rattle.std.specs.Prelude.{◌≡◌, ◌≤◌, true, length};
ghost use Rattle.units.specs.Units.{shannon_count, token_count};
ghost use Rattle.molecule.specs.Molecule.{readable, option};
ghost use Rattle.transaction.specs.Ckb.{Script};
ghost use Rattle.error.specs.Outcome.{fine, told};
ghost use Rattle.list_writer.specs.ListWriter.{if_positive};
ghost use Rattle.transaction_writer.specs.Written.{written};
ghost use Rattle.funding_builder.specs.Base.{change_output_capacity};
ghost use Rattle.funding_builder.specs.Lent.{lent_in, base_in};
ghost use Rattle.funding_builder.specs.Steps.{Readable, Roomy, Planned, AreDeps};

use crate::Lent;
use base_writer::{Base, Plan};
use cell_deps::DepLists;
use error::Refusal;
use funding_cell::FundingCell;
use transaction::fields;
use transaction_writer::{TxFields, Written};
use udt_cells::Picked;
use units::{Shannons, Tokens};

// How many cell deps 133,116 bytes have room for.
const MOST_DEPS: usize = 3597;

// Nearly all transactions have no more, and need only a little room for their places.
const FEW_DEPS: usize = 64;

// The deps where tokens were picked, and no bytes where none were.
fn if_picked(taken: usize, deps: &[u8]) -> &[u8]
    ensures { result.now ≡ if_positive taken deps.now }
{
    if taken == 0 {
        return molecule::part(deps, 0, 0);
    }
    deps
}

// The capacity of the change output, 0 where no change is left, as `Plan` and the rules have it.
#[tactic(auto, using(crate::proofs::CheckLaws::no_change, crate::proofs::CheckLaws::some_change), unfolding(units::specs::Fee::change_capacity))]
fn change_capacity(change: Tokens, source: &[u8], udt: &[u8]) -> Shannons
    requires { (readable Script source.now ≡ true) × (readable (option Script) udt.now ≡ true) }
    ensures { shannon_count result ≡ change_output_capacity (token_count change) source.now udt.now }
{
    if change == Tokens::ZERO {
        return Shannons::ZERO;
    }
    udt_cells::change_capacity(source, udt).unwrap_or(Shannons::ZERO)
}

// What a base transaction is assembled from: what is lent, the funding cell, and the pick.
#[derive(Clone, Copy, Debug, PartialEq, Eq)]
pub(crate) struct Assembly<'a> {
    pub(crate) lent: Lent<'a>,
    pub(crate) cell: FundingCell,
    pub(crate) picked: Picked,
}

impl<'a> Assembly<'a> {
    // The lists of cell deps: the token's and the lock's count where tokens were picked.
    fn dep_lists(&self) -> DepLists<'a>
        ensures { AreDeps result (lent_in self.now.lent) self.now.picked.taken }
    {
        let taken = self.picked.taken;
        DepLists {
            present: fields::cell_deps(self.lent.ours),
            udt: if_picked(taken, self.lent.udt_deps),
            lock: if_picked(taken, self.lent.lock_dep),
            extra: self.lent.extra_deps,
        }
    }

    // The figures that are written.
    fn make_plan(&self) -> Plan
        requires { (readable Script self.now.lent.source.now ≡ true) × (readable (option Script) self.now.lent.udt.now ≡ true) }
        ensures { Planned result self.now.cell.capacity self.now.cell.token self.now.picked.taken self.now.picked.change self.now.lent.source.now
            self.now.lent.udt.now }
    {
        let Picked { taken, change } = self.picked;
        Plan {
            capacity: self.cell.capacity,
            token: self.cell.token,
            taken,
            change,
            change_capacity: change_capacity(change, self.lent.source, self.lent.udt),
        }
    }

    // Writes the base transaction to the start of out, with the places of its deps in what is lent for them. That our bytes are below 256 is told by the way.
    fn write_with(&self, places: &mut [usize], sorted: &mut [usize], out: &mut [u8]) -> Written
        requires readable { Readable (lent_in self.now.lent) }
        requires roomy { Roomy (lent_in self.now.lent) self.now.picked.taken (length places.old) (length sorted.old) }
        ensures { (told result, out.new) ≡ written (fine (base_in self.now)) out.old }
    {
        transaction_writer::are_bytes(self.lent.ours);
        let deps = self.dep_lists();
        let Some(count) = distinct_deps::choose_places(deps, places, sorted) else {
            return Err(Refusal::BufferTooShort);
        };
        let base = Base {
            present: TxFields::of(self.lent.ours),
            lock: self.lent.lock,
            udt: self.lent.udt,
            source: self.lent.source,
            cells: self.lent.cells,
            deps,
            chosen: &places[..count],
            plan: self.make_plan(),
        };
        base.write(out)
    }

    // The same in room for the places of so many deps.
    fn write_in<const ROOM: usize>(&self, out: &mut [u8]) -> Written
        requires readable { Readable (lent_in self.now.lent) }
        requires roomy { Roomy (lent_in self.now.lent) self.now.picked.taken ROOM ROOM }
        requires room_bound { ROOM ≤ 3597 }
        ensures { (told result, out.new) ≡ written (fine (base_in self.now)) out.old }
    {
        let mut places = [0usize; ROOM];
        let mut sorted = [0usize; ROOM];
        self.write_with(&mut places, &mut sorted, out)
    }

    // The same, with room for the places of all deps where they are few, and else of as many as fit a transaction.
    pub(crate) fn write(&self, out: &mut [u8]) -> Written
        requires { Readable (lent_in self.now.lent) }
        ensures { (told result, out.new) ≡ written (fine (base_in self.now)) out.old }
    {
        if self.dep_lists().dep_count() <= FEW_DEPS {
            return self.write_in::<FEW_DEPS>(out);
        }
        self.write_in::<MOST_DEPS>(out)
    }
}
