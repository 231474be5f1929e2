// The entry of a transaction that is added to the map, uncommitted.
#![tactic(auto, using(crate::proofs::EntryWays::ways))]

ghost use Rattle.std.specs.Prelude.{◌≡◌, true, ◌+◌, ◌*◌, ◌≤◌, length, take, drop};
ghost use Rattle.molecule.specs.Layout.{fix_count};
ghost use Rattle.molecule.specs.Molecule.{readable, option};
ghost use Rattle.molecule.specs.Write.{splice, Put};
ghost use Rattle.transaction.specs.Ckb.{Transaction};
ghost use Rattle.transaction.specs.Tx.{raw_field};
ghost use Rattle.out_points.specs.OutPoints.{points_bytes};
ghost use Rattle.exclusion_entries.specs.Entries.{entry_bytes};
ghost use Rattle.exclusions.specs.Inner.{head_bytes, points_of_inputs, entry_with};

use molecule::write;
use out_points::Byte32;
use transaction::fields;

// The transaction's hash and its inputs, which are as long as their count says.
#[derive(Clone, Copy, Debug, PartialEq, Eq)]
pub(crate) struct NewEntry<'a> {
    pub(crate) hash: Byte32,
    pub(crate) inputs: &'a [u8],
    ghost sized: { length inputs.now ≡ 4 + 44 * fix_count inputs.now },
}

impl<'a> NewEntry<'a> {
    // That of a transaction that can be read.
    pub(crate) fn of(hash: Byte32, tx: &'a [u8]) -> NewEntry<'a>
        requires tx_value { readable (option Transaction) tx.now ≡ true }
        requires fact { length tx.now ≡ 0 → ⊥ }
        ensures hash { result.hash ≡ hash }
        ensures inputs { result.inputs.now ≡ raw_field tx.now 3 }
    {
        let inputs = fields::inputs(tx);
        NewEntry { hash, inputs }
    }

    // How many out points it has.
    pub(crate) fn point_count(self) -> u32
        ensures { result ≡ fix_count self.entry.inputs.now }
    {
        molecule::fix_count(self.inputs)
    }

    // Puts what stands before the out points.
    fn put_head(self, out: &mut [u8], at: usize) -> usize
        requires { at + 48 ≤ length out.old }
        ensures put { Put out.old at (head_bytes self.entry.hash (fix_count self.entry.inputs.now)) out.new result }
        ensures value { result ≡ at + 48 }
    {
        let at = out_points::put_byte32(out, at, self.hash);
        let at = write::put_u32(out, at, 0);
        let at = write::put_u64(out, at, 0);
        write::put_u32(out, at, self.point_count())
    }

    // Puts the out points that the inputs spend. `as_chunks` of the inputs would be no plainer: their places in `out` would be counted beside them all the
    // same, and `write::put` copies a length that it asks for, where here it is known.
    fn put_points(self, out: &mut [u8], at: usize)
        requires { at + 36 * fix_count self.inputs.now ≤ length out.old }
        ensures { out.new ≡ splice out.old at (points_bytes (points_of_inputs self.entry.inputs.now)) }
    {
        transaction_writer::are_bytes(self.inputs);
        let mut to = at;
        let mut from: usize = 12;
        let n = self.point_count();
        for _ in 0..n {
            copy_point(out, to, self.inputs, from);
            to += 36;
            from += 44;
        }
    }

    // Puts the entry.
    pub(crate) fn put(self, out: &mut [u8], at: usize)
        requires { at + (48 + 36 * fix_count self.inputs.now) ≤ length out.old }
        ensures { out.new ≡ splice out.old at (entry_bytes (entry_with self.entry.hash self.entry.inputs.now)) }
    {
        let next = self.put_head(out, at);
        self.put_points(out, next);
    }
}

// Copies the 36 bytes of an out point.
fn copy_point(out: &mut [u8], at: usize, src: &[u8], from: usize)
    requires at_in_bounds { at + 36 ≤ length out.old }
    requires from_in_bounds { from + 36 ≤ length src.now }
    ensures { out.new ≡ splice out.old at (take 36 (drop from src.now)) }
{
    out[at..at + 36].copy_from_slice(&src[from..from + 36]);
}
