// The outputs: the funding cell, the present ones after the first, and the change.
ghost use Rattle.std.specs.Prelude.{◌≡◌, ℕ, ◌+◌, min, length};
ghost use Rattle.units.specs.Units.{shannon_count};
ghost use Rattle.molecule.specs.Items.{join};
ghost use Rattle.list_writer.specs.ListWriter.{if_positive, put_list, put_list_end};
ghost use Rattle.cell_output.specs.CellOutput.{cell_output};
ghost use Rattle.base_lists.specs.BaseLists.{output_list};
ghost use Rattle.base_lists.specs.Parts.{outputs_bytes};

use cell_output::output_head;
use list_writer::{Later, Lengths, Parts, capped};
use units::Shannons;

// How long a cell's output is.
fn cell_len(lock: &[u8], udt: &[u8]) -> usize
    ensures { result ≡ min (24 + length lock.now + length udt.now) 133117 }
{
    capped(capped(24, lock.len()), udt.len())
}

// The funding cell under `lock`, with the type `udt` and of this capacity; the later ones of the present transaction; and the change under the lock
// `source`, unless its capacity is 0. That is no `Option`: no output has a capacity of 0, and so an `Option` would say none in two ways.
#[derive(Clone, Copy, Debug, PartialEq, Eq)]
pub struct Outputs<'a> {
    pub capacity: Shannons,
    pub lock: &'a [u8],
    pub udt: &'a [u8],
    pub present: Later<'a>,
    pub change: Shannons,
    pub source: &'a [u8],
}

impl Outputs<'_> {
    // How long the change's output is; a change without a capacity has none.
    fn change_len(self) -> usize
        ensures { result ≡ min (length (if_positive (shannon_count self.entry.change) (cell_output (shannon_count self.entry.change) self.entry.source.now
            self.entry.udt.now))) 133117 }
    {
        if self.change == Shannons::ZERO {
            0
        } else {
            cell_len(self.source, self.udt)
        }
    }

    // How long the outputs are, whatever the funding cell's capacity is.
    pub fn len(self) -> usize
        ensures { (n : ℕ) → result
            ≡ min (length (join (output_list n self.entry.lock.now self.entry.udt.now self.entry.present.list.now self.entry.present.count
            (shannon_count self.entry.change) self.entry.source.now))) 133117 }
    {
        let lengths = Lengths {
            first: cell_len(self.lock, self.udt),
            items: self.present,
            last: self.change_len(),
        };
        lengths.total()
    }

    // Puts them.
    pub fn put(self, out: &mut [u8], at: usize) -> usize
        ensures out_after { out.new ≡ put_list out.old at (outputs_bytes self.entry) }
        ensures value { result ≡ put_list_end out.old at (outputs_bytes self.entry) }
    {
        let head = output_head(self.capacity, self.lock.len(), self.udt.len());
        let cell = [&head, self.lock, self.udt];
        if self.change == Shannons::ZERO {
            let list = Parts {
                first: &cell,
                items: self.present,
                last: &[],
            };
            return list.put(out, at);
        }
        let tail = output_head(self.change, self.source.len(), self.udt.len());
        let list = Parts {
            first: &cell,
            items: self.present,
            last: &[&tail, self.source, self.udt],
        };
        list.put(out, at)
    }
}
