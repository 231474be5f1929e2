// A transaction with its outputs and their data, and what stands at output 0.
ghost use Rattle.std.specs.Prelude.{◌≡◌, ◌&&◌, not};
ghost use Rattle.units.specs.Units.{shannon_count};
ghost use Rattle.transaction.specs.Tx.{tx_at, raw_field};
ghost use Rattle.transaction.specs.Cells.{cells};
ghost use Rattle.lists.specs.Lists.{is_empty};
ghost use Rattle.rules.specs.Surplus.{first, cell_capacity};
ghost use Rattle.rules.specs.Judge.{unfunded};
ghost use Rattle.contribution.specs.Answers.{amount, first_amount};

use transaction::fields;
use units::{Shannons, Tokens};

// Both lists are looked up once: a look-up has branches of its own, which the compiler does not join.
#[derive(Clone, Copy, Debug, PartialEq, Eq)]
pub(crate) struct Funded<'a> {
    pub tx: &'a [u8],
    pub outputs: &'a [u8],
    pub entries: &'a [u8],
    ghost outputs_are: { outputs.now ≡ raw_field tx.now 4 },
    ghost entries_are: { entries.now ≡ raw_field tx.now 5 },
}

impl<'a> Funded<'a> {
    pub(crate) fn of(tx: &'a [u8]) -> Funded<'a>
        ensures { result.tx.now ≡ tx.now }
    {
        Funded {
            tx,
            outputs: fields::outputs(tx),
            entries: fields::outputs_data(tx),
        }
    }

    // The capacity of output 0; absent counts 0.
    pub(crate) fn first_capacity(self) -> Shannons
        ensures { shannon_count result ≡ first cell_capacity (cells (tx_at self.entry.tx.now)) }
    {
        if molecule::item_count(self.outputs) == 0 {
            return Shannons::ZERO;
        }
        let o = molecule::item(self.outputs, 0);
        fields::capacity(o)
    }

    // Its amount, if that can be read; absent counts 0.
    pub(crate) fn first_amount(self) -> Option<Tokens>
        ensures { amount result ≡ first_amount (tx_at self.entry.tx.now) }
    {
        if molecule::item_count(self.outputs) == 0 {
            return Some(Tokens::ZERO);
        }
        let d = molecule::entry(self.entries, 0);
        accounts::read_udt_amount(d)
    }

    // Whether output 0 and its data are there.
    pub(crate) fn has_first(self) -> bool
        ensures { result ≡ not (is_empty (tx_at self.entry.tx.now).outputs) && not (is_empty (tx_at self.entry.tx.now).outputs_data) }
    {
        molecule::item_count(self.outputs) != 0 && molecule::item_count(self.entries) != 0
    }

    // Whether there are no inputs and no outputs.
    pub(crate) fn is_unfunded(self) -> bool
        ensures { result ≡ unfunded (tx_at self.entry.tx.now) }
    {
        fields::input_count(self.tx) == 0 && molecule::item_count(self.outputs) == 0
    }
}
