// The distinct deps of a base transaction. By an index of each list a dep is new where it stands nowhere before, in its own list or in one of those before it.
#![tactic(auto, using(crate::proofs::Ways::ways))]

mod in_turn;
mod indexed;

ghost use Rattle.std.specs.Prelude.{◌≡◌, not, ◌≤◌, ◌<◌, min, length};
ghost use Rattle.molecule.specs.Layout.{span};
ghost use Rattle.lists.specs.Lists.{contains};
ghost use Rattle.cell_deps.specs.CellDeps.{any_count};
ghost use Rattle.cell_deps.specs.DepLists.{dep_of, count_of};
ghost use Rattle.distinct_deps.specs.Chosen.{ChoosesOf};
ghost use Rattle.distinct_deps.specs.Indexed.{deps_in};

use cell_deps::{DepLists, any_count};
use in_turn::choose_in_turn;
use indexed::Indexed;

// For how many places of each list there is room. So many deps are put in order at once.
const ROOM: usize = 3600;

// So few are kept in order as they come.
const FEW: usize = 64;

// Whether x is the lock's dep.
fn is_lock(lock: &[u8], x: &[u8]) -> bool
    ensures { result ≡ contains x.now (span (λ _. lock.now) 0 (any_count lock.now)) }
{
    !lock.is_empty() && lists::same(x, lock)
}

// The four lists, three of them with an index: the lock's has one dep at most.
#[derive(Clone, Copy, Debug, PartialEq, Eq)]
struct IndexedLists<'a> {
    present: Indexed<'a>,
    udt: Indexed<'a>,
    lock: &'a [u8],
    extra: Indexed<'a>,
}

impl<'a> IndexedLists<'a> {
    fn lists(self) -> DepLists<'a>
        ensures { result ≡ deps_in self.entry }
    {
        DepLists {
            present: self.present.list,
            udt: self.udt.list,
            lock: self.lock,
            extra: self.extra.list,
        }
    }

    // Whether the dep at place i stands nowhere before.
    fn is_new(self, i: usize) -> bool
        requires { i < count_of (deps_in self) }
        ensures { result ≡ not (contains (dep_of (deps_in self.entry) i) (span (dep_of (deps_in self.entry)) 0 i)) }
    {
        let x = self.lists().dep_at(i);
        let Some(own) = i.checked_sub(molecule::fix_count(self.present.list) as usize) else {
            return self.present.is_first(i, x);
        };
        if self.present.has(x) {
            return false;
        }
        let Some(last) = own.checked_sub(molecule::fix_count(self.udt.list) as usize) else {
            return self.udt.is_first(own, x);
        };
        if self.udt.has(x) {
            return false;
        }
        let Some(extra) = last.checked_sub(any_count(self.lock)) else {
            return true;
        };
        if is_lock(self.lock, x) {
            return false;
        }
        self.extra.is_first(extra, x)
    }

    // Puts the places of the new deps, in their order, and returns how many there are, or nothing where there are more than there is room for.
    fn gather(self, places: &mut [usize]) -> Option<usize>
        ensures { ChoosesOf (deps_in self.entry) (length places.old) places.new result }
    {
        let mut count = 0;
        for i in 0..self.lists().dep_count() {
            if self.is_new(i) {
                if places.len() <= count {
                    return None;
                }
                places[count] = i;
                count += 1;
            }
        }
        Some(count)
    }
}

// Puts a place of each dep and returns how many there are, by the indexes of the three lists, which are made here.
fn choose_indexed(lists: DepLists<'_>, places: &mut [usize]) -> Option<usize>
    requires { count_of lists ≤ 3600 }
    ensures { ChoosesOf lists.entry (length places.old) places.new result }
{
    let mut present = [0u32; ROOM];
    let mut udt = [0u32; ROOM];
    let mut extra = [0u32; ROOM];
    let indexed = IndexedLists {
        present: Indexed::of(lists.present, &mut present),
        udt: Indexed::of(lists.udt, &mut udt),
        lock: lists.lock,
        extra: Indexed::of(lists.extra, &mut extra),
    };
    indexed.gather(places)
}

// Puts a place of each dep, in the order in which they first stand, at the start of `places`, and returns how many there are, or nothing where there are more
// than the two slices have room for. Both slices are work room. To put a place among others in order moves those behind it, so many deps are put in order at
// once; with more than there is room for, at most 3,597 are ever moved.
pub fn choose_places(
    lists: DepLists<'_>,
    places: &mut [usize],
    sorted: &mut [usize],
) -> Option<usize>
    ensures { ChoosesOf lists.entry (min (length places.old) (length sorted.old)) places.new result }
{
    let n = lists.dep_count();
    if n <= FEW || ROOM < n {
        return choose_in_turn(lists, places, sorted);
    }
    let room = places.len().min(sorted.len());
    choose_indexed(lists, &mut places[..room])
}
