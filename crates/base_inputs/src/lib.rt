// Writes the inputs of a base transaction into a lent buffer: the present ones as they stand, then one for each picked cell, with since 0. How long they
// are is 133,117 for all that is longer than a transaction may be. Where they do not fit nothing is written, and the place that is answered is the one
// that was given.
#![tactic(auto, using(crate::proofs::Ways::ways))]

ghost use Rattle.std.specs.Prelude.{◌≡◌, ◌+◌, ◌≤◌, min, length};
ghost use mathlib.Core.List.{flatten};
ghost use Rattle.molecule.specs.Layout.{span, item_of, fix_items};
ghost use Rattle.molecule.specs.Write.{Put};
ghost use Rattle.transaction.specs.Tx.{first_of};
ghost use Rattle.list_writer.specs.ListWriter.{put_list, put_list_end};
ghost use Rattle.list_writer.specs.Around.{Room};
ghost use Rattle.base_inputs.specs.BaseInputs.{picked, inputs_size, inputs_bytes};

use list_writer::{MAX_BYTES, capped, fits};
use molecule::write;
use transaction::fields;

// The inputs: those of the list `present`, then those of the first `taken` of `cells`.
#[derive(Clone, Copy, Debug, PartialEq, Eq)]
pub struct Inputs<'a> {
    pub present: &'a [u8],
    pub cells: &'a [u8],
    pub taken: usize,
}

impl<'a> Inputs<'a> {
    // The present ones, one after the other: what follows their count.
    fn run(self) -> &'a [u8]
        ensures { result.now ≡ flatten (fix_items 44 self.entry.present.now) }
    {
        let n = molecule::fix_count(self.present) as usize;
        molecule::part(self.present, 4, 4 + 44 * n)
    }

    // The out point of cell i.
    fn point(self, i: usize) -> &'a [u8]
        ensures { result.now ≡ first_of (item_of self.entry.cells.now i) }
    {
        fields::token_cell_out_point(molecule::item(self.cells, i))
    }

    // How long the picked ones are.
    fn picked_len(self) -> usize
        ensures { result ≡ min (length (flatten (span (picked self.entry.cells.now) 0 self.entry.taken))) 133117 }
    {
        let mut n = 0;
        for i in 0..self.taken {
            n = capped(n, 8);
            n = capped(n, self.point(i).len());
        }
        n
    }

    // How long the inputs are. Each picked one has 8 bytes or more, so that more cells than fit a transaction are not looked at.
    pub fn len(self) -> usize
        ensures { result ≡ min (length (inputs_bytes self.entry)) 133117 }
    {
        if self.taken > MAX_BYTES / 8 {
            return MAX_BYTES + 1;
        }
        capped(capped(4, self.run().len()), self.picked_len())
    }

    // Puts the input of cell i.
    fn put_one(self, out: &mut [u8], at: usize, i: usize) -> usize
        requires { at + length (picked self.cells.now i) ≤ length out.old }
        ensures { Put out.old at (picked self.entry.cells.now i) out.new result }
    {
        let at = write::put_u64(out, at, 0);
        write::put(out, at, self.point(i))
    }

    // Puts the picked ones.
    fn put_picked(self, out: &mut [u8], at: usize) -> usize
        requires { at + length (flatten (span (picked self.cells.now) 0 self.taken)) ≤ length out.old }
        ensures { Put out.old at (flatten (span (picked self.entry.cells.now) 0 self.entry.taken)) out.new result }
    {
        let mut next = at;
        for i in 0..self.taken {
            next = self.put_one(out, next, i);
        }
        next
    }

    // Puts the inputs where they fit. Their count is modulo 2^32, as four bytes hold it.
    fn put_whole(self, out: &mut [u8], at: usize) -> usize
        requires { Room out.old at (inputs_size self.present.now self.cells.now self.taken) }
        ensures { Put out.old at (inputs_bytes self.entry) out.new result }
    {
        let n = molecule::fix_count(self.present).wrapping_add(self.taken as u32);
        let at = write::put_u32(out, at, n);
        let at = write::put(out, at, self.run());
        self.put_picked(out, at)
    }

    // Puts the inputs.
    pub fn put(self, out: &mut [u8], at: usize) -> usize
        ensures out_after { out.new ≡ put_list out.old at (inputs_bytes self.entry) }
        ensures value { result ≡ put_list_end out.old at (inputs_bytes self.entry) }
    {
        if !fits(self.len(), at, out.len()) {
            return at;
        }
        self.put_whole(out, at)
    }
}
