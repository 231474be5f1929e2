// What each pick is to the calls on holds: a repeat of an earlier pick, or the first on its cell, and then free or busy. The picks are indexed, and the cells
// that are held and those that are spent go through the index once, so that the time goes by (picks + held + spent) log picks comparisons whatever the bytes.
#![tactic(auto, using(crate::proofs::Ways::ways))]

ghost use Rattle.std.specs.Prelude.{◌≡◌, true, ◌≤◌, ◌<◌, min, length};
ghost use Rattle.molecule.specs.Layout.{fix_count};
ghost use Rattle.out_points.specs.OutPoints.{point_of, points};
ghost use Rattle.pick_kinds.specs.Kinds.{none_is, kind_of, Kinds};
ghost use Rattle.pick_kinds.specs.Indexed.{Whole, Places, First, Adds};
ghost use Rattle.pick_kinds.specs.Picks.{KindsOf, AreWhole};

use item_index::Keys;
use out_points::OUT_POINT_BYTES;

// So many picks are indexed. Two lists of 133,116 bytes hold no more.
pub const MOST_PICKS: usize = 7394;

// So many are indexed in less room, which is sooner cleared.
const SOME_PICKS: usize = 1024;

// What a pick is: the same as an earlier one; the first on its cell, and free; the first, and busy.
#[derive(Clone, Copy, Debug, PartialEq, Eq, Hash)]
pub enum Kind {
    Again,
    Free,
    Busy,
}

// The picks, and what makes a cell busy: the cells that are held and those that are spent.
#[derive(Clone, Copy, Debug, PartialEq, Eq)]
pub struct Picks<'a> {
    pub cells: &'a [u8],
    pub picked: &'a [u8],
    pub spent: &'a [u8],
}

// The same with the index of the first picks, as many as it has places.
#[derive(Clone, Copy, Debug, PartialEq, Eq)]
struct Indexed<'a> {
    picks: Picks<'a>,
    places: &'a [u32],
    ghost are_places: { Places picks.cells.now picks.picked.now picks.spent.now places.now },
}

// Whether the list has all its items whole.
fn is_whole(s: &[u8]) -> bool
    ensures { result ≡ true → Whole s.now }
{
    4 + 36 * molecule::fix_count(s) as usize <= s.len()
}

impl<'a> Indexed<'a> {
    // The first pick that is item k of the list.
    fn find(self, list: &[u8], k: usize) -> Option<usize>
        requires whole { Whole list.now }
        requires k_bound { k < fix_count list.now }
        ensures { First (point_of self.entry.picks.picked.now) (length self.entry.places.now) (point_of list.now k) result }
    {
        let keys = Keys {
            items: self.picks.picked,
            size: OUT_POINT_BYTES,
            skip: 0,
        };
        keys.place_of(self.places, molecule::fix_item(list, OUT_POINT_BYTES, k))
    }

    // What pick i is where nothing is busy.
    fn kind(self, i: usize) -> Kind
        requires i_bound { i < length self.places.now }
        ensures { result ≡ kind_of none_is (point_of self.entry.picks.picked.now) i }
    {
        let first = self.find(self.picks.picked, i) == Some(i);
        if first { Kind::Free } else { Kind::Again }
    }

    fn set_kinds(self, kinds: &mut [Kind])
        requires in_bounds { length self.places.now ≤ length kinds.old }
        ensures { Kinds none_is (point_of self.entry.picks.picked.now) (length self.entry.places.now) kinds.new }
    {
        for i in 0..self.places.len() {
            kinds[i] = self.kind(i);
        }
    }

    // The list's cells are busy too.
    fn mark_busy(self, list: &[u8], kinds: &mut [Kind])
        requires whole { Whole list.now }
        requires in_bounds { length self.places.now ≤ length kinds.old }
        ensures after { Adds (point_of self.entry.picks.picked.now) (length self.entry.places.now) (points list.now) kinds.old kinds.new }
        ensures kept_length { length kinds.new ≡ length kinds.old }
    {
        for k in 0..molecule::fix_count(list) as usize {
            let Some(at) = self.find(list, k) else {
                continue;
            };
            kinds[at] = Kind::Busy;
        }
    }

    // Puts the kinds of the indexed picks.
    fn put_kinds(self, kinds: &mut [Kind])
        requires in_bounds { length self.places.now ≤ length kinds.old }
        ensures { KindsOf self.entry.picks (length self.entry.places.now) kinds.new }
    {
        self.set_kinds(kinds);
        self.mark_busy(self.picks.cells, kinds);
        self.mark_busy(self.picks.spent, kinds);
    }
}

impl<'a> Picks<'a> {
    // Whether all three lists have their items whole.
    fn are_whole(self) -> bool
        ensures { result ≡ true → AreWhole self.entry }
    {
        is_whole(self.cells) && is_whole(self.picked) && is_whole(self.spent)
    }

    // Puts the kinds of the first n picks by an index of them, in room for so many.
    fn kinds_in<const ROOM: usize>(self, n: u32, kinds: &mut [Kind])
        requires are_whole { AreWhole self }
        requires n_bound { n ≤ fix_count self.picked.now }
        requires n_bound_2 { n ≤ ROOM }
        requires room { ROOM ≤ 7394 }
        requires in_bounds { n ≤ length kinds.old }
        ensures { KindsOf self.entry n kinds.new }
    {
        let mut s = [0u32; ROOM];
        let mut t = [0u32; ROOM];
        let keys = Keys {
            items: self.picked,
            size: OUT_POINT_BYTES,
            skip: 0,
        };
        keys.build(n, &mut s, &mut t);
        let indexed = Indexed {
            picks: self,
            places: &s[..n as usize],
        };
        indexed.put_kinds(kinds);
    }

    // How many picks are indexed.
    fn indexed(self) -> u32
        ensures { result ≡ min (fix_count self.entry.picked.now) 7394 }
    {
        molecule::fix_count(self.picked).min(MOST_PICKS as u32)
    }

    // Puts what each pick is, and answers for how many picks it does so: for the first 7,394, and for none where kinds is too short or a list ends before its
    // items do.
    pub fn sort_out(self, kinds: &mut [Kind]) -> usize
        ensures { KindsOf self.entry result kinds.new }
    {
        if !self.are_whole() {
            return 0;
        }
        let n = self.indexed();
        let m = n as usize;
        if kinds.len() < m {
            return 0;
        }
        if m <= SOME_PICKS {
            self.kinds_in::<SOME_PICKS>(n, kinds);
            return m;
        }
        self.kinds_in::<MOST_PICKS>(n, kinds);
        m
    }
}
