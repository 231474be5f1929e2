// The cell deps of a base transaction: of four lists, one after the other, each dep where it first stands.
#![tactic(auto, using(crate::proofs::Ways::ways))]

ghost use Rattle.std.specs.Prelude.{◌≡◌, ◌+◌, ◌≤◌, min, length};
ghost use mathlib.Core.List.{flatten};
ghost use Rattle.molecule.specs.Write.{Put};
ghost use Rattle.molecule.specs.Items.{fix_list};
ghost use Rattle.list_writer.specs.ListWriter.{put_list, put_list_end};
ghost use Rattle.cell_deps.specs.CellDeps.{any_count};
ghost use Rattle.cell_deps.specs.DepLists.{dep_of, count_of, chosen_of};

use molecule::write;

// How many bytes a cell dep has: an out point and the dep type.
pub const CELL_DEP_BYTES: u32 = 37;

// Whether there is a dep: none is empty.
pub fn any_count(dep: &[u8]) -> usize
    ensures value { result ≡ any_count dep.now }
    ensures upper_bound { result ≤ 1 }
{
    usize::from(!dep.is_empty())
}

// The present deps, the token's, the lock's, which is one dep or nothing, and the extra ones.
#[derive(Clone, Copy, Debug, PartialEq, Eq)]
pub struct DepLists<'a> {
    pub present: &'a [u8],
    pub udt: &'a [u8],
    pub lock: &'a [u8],
    pub extra: &'a [u8],
}

impl<'a> DepLists<'a> {
    // The dep at a place.
    #[tactic(auto, using(std::proofs::lemmas::Bool::Decides::nat_tests), unfolding(crate::specs::CellDeps::before, crate::specs::CellDeps::dep_at, crate::specs::CellDeps::own_dep_at, crate::specs::CellDeps::last_dep_at))]
    pub fn dep_at(self, i: usize) -> &'a [u8]
        ensures { result.now ≡ dep_of self.entry i }
    {
        let Some(i) = i.checked_sub(molecule::fix_count(self.present) as usize) else {
            return molecule::fix_item(self.present, CELL_DEP_BYTES, i);
        };
        let Some(i) = i.checked_sub(molecule::fix_count(self.udt) as usize) else {
            return molecule::fix_item(self.udt, CELL_DEP_BYTES, i);
        };
        let Some(i) = i.checked_sub(any_count(self.lock)) else {
            return self.lock;
        };
        molecule::fix_item(self.extra, CELL_DEP_BYTES, i)
    }

    // How many deps the four lists have.
    pub fn dep_count(self) -> usize
        ensures { result ≡ count_of self.entry }
    {
        let a = molecule::fix_count(self.present) as usize;
        let b = molecule::fix_count(self.udt) as usize;
        let d = molecule::fix_count(self.extra) as usize;
        a + b + any_count(self.lock) + d
    }

    // How long the list of the chosen deps is; 133,117 for all that is longer.
    pub fn deps_size(self, chosen: &[usize]) -> usize
        ensures { result ≡ min (length (fix_list (chosen_of self.entry chosen.now))) 133117 }
    {
        let mut size = 0;
        for place in chosen {
            size = list_writer::capped(size, self.dep_at(*place).len());
        }
        list_writer::capped(4, size)
    }

    // Puts the chosen deps one after the other.
    fn put_places(self, out: &mut [u8], at: usize, chosen: &[usize]) -> usize
        requires { at + length (flatten (chosen_of self chosen.now)) ≤ length out.old }
        ensures { Put out.old at (flatten (chosen_of self.entry chosen.now)) out.new result }
    {
        let mut to = at;
        for place in chosen {
            to = write::put(out, to, self.dep_at(*place));
        }
        to
    }

    // Puts the list of the chosen deps at `at`: nothing where it is over 133,116 bytes or over out. Its count is modulo 2^32, as four bytes hold it.
    pub fn put_deps(self, out: &mut [u8], at: usize, chosen: &[usize]) -> usize
        ensures out_after { out.new ≡ put_list out.old at (fix_list (chosen_of self.entry chosen.now)) }
        ensures value { result ≡ put_list_end out.old at (fix_list (chosen_of self.entry chosen.now)) }
    {
        let size = self.deps_size(chosen);
        if !list_writer::fits(size, at, out.len()) {
            return at;
        }
        let n = chosen.len() % 4_294_967_296;
        let at = write::put_u32(out, at, n as u32);
        self.put_places(out, at, chosen)
    }
}
