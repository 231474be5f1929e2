// Writes a base transaction into a lent buffer: from the lists of the present one, the lent lists, and the figures.
#![tactic(auto)]

ghost use Rattle.std.specs.Prelude.{◌≡◌, ◌-◌};
ghost use Rattle.molecule.specs.Layout.{item_count};
ghost use Rattle.molecule.specs.Write.{Put};
ghost use Rattle.error.specs.Outcome.{fine, told};
ghost use Rattle.transaction_writer.specs.Written.{written};
ghost use Rattle.base_writer.specs.Lists.{or_empty, base_bytes, Capped, Fitting, BackFits, front, back};
ghost use Rattle.base_writer.specs.Base.{lists_in, inputs_in, outputs_in, data_in, witnesses_in};

use base_inputs::Inputs;
use base_lists::{Outputs, OutputsData, Witnesses};
use cell_deps::DepLists;
use error::Refusal;
use list_writer::{Later, MAX_BYTES};
use molecule::write;
use transaction_writer::{Sizes, TxFields, Written};
use units::{Shannons, Tokens};

// The figures of a base transaction: the funding cell's, how many token cells are taken, what change is left of them, and the capacity of its
// output, 0 where there is none: the rules' own figures, so that an `Option` would be turned back into 0 at each definition that reads one.
#[derive(Clone, Copy, Debug, PartialEq, Eq, Hash)]
pub struct Plan {
    pub capacity: Shannons,
    pub token: Tokens,
    pub taken: usize,
    pub change: Tokens,
    pub change_capacity: Shannons,
}

// What a base transaction is made from: the fields of the present one, of which the version and all lists but the cell deps and the witnesses count; what
// is lent beside it; the four lists of cell deps, and the places of those that are chosen; and the figures.
#[derive(Clone, Copy, Debug, PartialEq, Eq)]
pub struct Base<'a> {
    pub present: TxFields<'a>,
    pub lock: &'a [u8],
    pub udt: &'a [u8],
    pub source: &'a [u8],
    pub cells: &'a [u8],
    pub deps: DepLists<'a>,
    pub chosen: &'a [usize],
    pub plan: Plan,
}

// A list of sized items; no bytes stand for the empty one.
#[tactic(auto, using(crate::proofs::ListLaws::or_none, crate::proofs::ListLaws::or_some))]
fn or_empty(s: &[u8]) -> &[u8]
    ensures { result.now ≡ or_empty s.now }
{
    if s.is_empty() { &[0, 0, 0, 0] } else { s }
}

// How many outputs there are after the first.
fn later_count(outputs: &[u8]) -> usize
    ensures { result ≡ item_count outputs.now - 1 }
{
    molecule::item_count(outputs).saturating_sub(1) as usize
}

impl<'a> Base<'a> {
    fn inputs(&self) -> Inputs<'a>
        ensures { result ≡ inputs_in self.now }
    {
        Inputs {
            present: self.present.inputs,
            cells: self.cells,
            taken: self.plan.taken,
        }
    }

    fn outputs(&self) -> Outputs<'a>
        ensures { result ≡ outputs_in self.now }
    {
        let present = Later {
            list: self.present.outputs,
            count: later_count(self.present.outputs),
        };
        Outputs {
            capacity: self.plan.capacity,
            lock: self.lock,
            udt: self.udt,
            present,
            change: self.plan.change_capacity,
            source: self.source,
        }
    }

    // The outputs' data: an entry for each output.
    #[tactic(auto, using(crate::proofs::ListLaws::data_made))]
    fn datas(&self) -> OutputsData<'a>
        ensures { result ≡ data_in self.now }
    {
        let entries = later_count(self.present.outputs);
        let present = Later {
            list: self.present.datas,
            count: entries,
        };
        OutputsData {
            tokens: (!self.udt.is_empty()).then_some(self.plan.token),
            present,
            change: self.plan.change,
        }
    }

    fn witnesses(&self) -> Witnesses
        ensures { result ≡ witnesses_in self.now }
    {
        Witnesses {
            present: molecule::fix_count(self.present.inputs) as usize,
            picked: self.plan.taken,
        }
    }

    // How long the lists are.
    fn sizes(&self) -> Sizes
        ensures { Capped result (lists_in self.now) }
    {
        Sizes {
            deps: self.deps.deps_size(self.chosen),
            headers: or_empty(self.present.headers).len().min(MAX_BYTES + 1),
            inputs: self.inputs().len(),
            outputs: self.outputs().len(),
            datas: self.datas().len(),
            witnesses: self.witnesses().len(),
        }
    }

    // Puts the head and the first three lists at the start of out.
    fn put_front(&self, out: &mut [u8], z: Sizes) -> usize
        requires { Fitting z (lists_in self.now) out.old }
        ensures { Put out.old 0 (front self.now.present.version z (lists_in self.now)) out.new result }
    {
        let at = transaction_writer::put_head(out, self.present.version, z);
        let at = self.deps.put_deps(out, at, self.chosen);
        let at = write::put(out, at, or_empty(self.present.headers));
        self.inputs().put(out, at)
    }

    // Puts the last three lists at `at`.
    fn put_back(&self, out: &mut [u8], at: usize) -> usize
        requires { BackFits at (lists_in self.now) out.old }
        ensures { Put out.old at (back (lists_in self.now)) out.new result }
    {
        let at = self.outputs().put(out, at);
        let at = self.datas().put(out, at);
        self.witnesses().put(out, at)
    }

    // Puts the transaction, whose lists have the sizes z, at the start of out.
    #[tactic(auto, using(crate::proofs::PutLaws::back_fits))]
    fn put(&self, out: &mut [u8], z: Sizes) -> usize
        requires { Fitting z (lists_in self.now) out.old }
        ensures { Put out.old 0 (base_bytes self.now.present.version (lists_in self.now)) out.new result }
    {
        let at = self.put_front(out, z);
        self.put_back(out, at)
    }

    // Writes the transaction to the start of out. Refused with 13, and out as it was, where it is over out or over 133,116 bytes.
    #[tactic(auto, using(crate::proofs::AnswerLaws::base_refused, crate::proofs::AnswerLaws::base_fits))]
    pub fn write(&self, out: &mut [u8]) -> Written
        ensures { (told result, out.new) ≡ written (fine (base_bytes self.now.present.version (lists_in self.now))) out.old }
    {
        let z = self.sizes();
        if !z.fit(out.len()) {
            return Err(Refusal::BufferTooShort);
        }
        Ok(self.put(out, z))
    }
}
