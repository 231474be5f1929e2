// Picks against a list of held cells and one of spent cells: what each pick is, and which are unavailable.
#![tactic(auto, using(crate::proofs::Ways::ways))]

ghost use Rattle.std.specs.Prelude.{◌≡◌, true, [], ◌+◌, ◌*◌, ◌≤◌, ◌<◌, min, length, set};
ghost use Rattle.molecule.specs.Layout.{fix_count};
ghost use Rattle.molecule.specs.Write.{Put};
ghost use Rattle.out_points.specs.OutPoints.{slot_of, point_of, points, points_bytes};
ghost use Rattle.out_points.specs.Tables.{has_room};
ghost use Rattle.hold_records.specs.Holds.{records_of, is_busy, firsts};
ghost use Rattle.hold_records.specs.Inner.{put_if};
ghost use Rattle.pick_kinds.specs.Kinds.{kind_of, Kinds};
ghost use Rattle.pick_kinds.specs.Picks.{among_of, KindsOf};
ghost use Rattle.unavailable_picks.specs.Inner.{marked, Marks, is_first, named_of};

use hold_records::{Held, MOST_RECORDS};
use molecule::write;
use out_points::{OutPoint, SLOTS};
use pick_kinds::{Kind, MOST_PICKS, Picks};

// How many bytes the list of a table's cells has at most.
pub const CELLS_BYTES: usize = 4 + 36 * MOST_RECORDS;

// So many picks are looked up one by one: an index would cost more.
const FEW_PICKS: usize = 64;

// Sets the mark of the out point, which is that of its slot.
fn mark(marks: &mut [bool], p: OutPoint)
    ensures { marks.new ≡ set marks.old (slot_of p) true }
{
    let at = out_points::slot(p);
    if at < marks.len() {
        marks[at] = true;
    }
}

// Sets the marks of the list's out points.
fn mark_list(s: &[u8], marks: &mut [bool])
    ensures { marks.new ≡ marked (points s.now) marks.old }
{
    let n = molecule::fix_count(s) as usize;
    for i in 0..n {
        mark(marks, out_points::point_of(s, i));
    }
}

// Sets the marks of the cells that are busy.
fn mark_both(picks: Picks<'_>, marks: &mut [bool])
    ensures { marks.new ≡ marked (points picks.entry.spent.now) (marked (points picks.entry.cells.now) marks.old) }
{
    mark_list(picks.cells, marks);
    mark_list(picks.spent, marks);
}

// The picks, with the marks of the cells that are busy.
#[derive(Clone, Copy, Debug, PartialEq, Eq)]
struct Marked<'a> {
    picks: Picks<'a>,
    marks: &'a [bool],
    ghost are_marks: { Marks (points picks.cells.now) (points picks.spent.now) marks.now },
}

// The same, with the kinds of the first picks, which have been sorted out: the others are looked up.
#[derive(Clone, Copy, Debug, PartialEq, Eq)]
struct Known<'a> {
    marked: Marked<'a>,
    kinds: &'a [Kind],
    ghost are_kinds: { Kinds (among_of marked.picks) (point_of marked.picks.picked.now) (length kinds.now) kinds.now },
}

impl<'a> Marked<'a> {
    // Whether p is one of the cells, which are held, or spent. Where its mark is not set, nothing is searched.
    fn is_busy(self, p: OutPoint) -> bool
        ensures { result ≡ among_of self.entry.picks p }
    {
        self.marks[out_points::slot(p)]
            && (out_points::has_point(self.picks.cells, p)
                || out_points::has_point(self.picks.spent, p))
    }

    // What pick i is, looked up.
    fn kind_at(self, i: usize) -> Kind
        requires i_bound { i < fix_count self.picks.picked.now }
        ensures { result ≡ kind_of (among_of self.entry.picks) (point_of self.entry.picks.picked.now) i }
    {
        let p = out_points::point_of(self.picks.picked, i);
        if out_points::has_before(self.picks.picked, i, p) {
            return Kind::Again;
        }
        if self.is_busy(p) {
            return Kind::Busy;
        }
        Kind::Free
    }

    // Puts what the picks from `from` on are, as far as kinds goes.
    fn look_up_from(self, from: usize, kinds: &mut [Kind])
        requires known { KindsOf self.picks from kinds.old }
        ensures { KindsOf self.entry.picks (min (fix_count self.entry.picks.picked.now) (length kinds.new)) kinds.new }
    {
        let n = kinds
            .len()
            .min(molecule::fix_count(self.picks.picked) as usize);
        for i in from..n {
            kinds[i] = self.kind_at(i);
        }
    }

    // Whether pick i is busy, and no pick before it is the same: both are looked up.
    fn look_up(self, i: usize) -> bool
        requires i_bound { i < fix_count self.picks.picked.now }
        ensures { result ≡ is_first (among_of self.entry.picks) (point_of self.entry.picks.picked.now) i }
    {
        let p = out_points::point_of(self.picks.picked, i);
        self.is_busy(p) && !out_points::has_before(self.picks.picked, i, p)
    }

    // Puts the list of the busy picks by an index of the picks.
    fn index_busy(self, out: &mut [u8]) -> bool
        ensures value { result ≡ has_room (named_of self.entry.picks) out.old }
        ensures out_after { out.new ≡ put_if (named_of self.entry.picks) out.old }
    {
        let mut kinds = [Kind::Again; MOST_PICKS];
        let n = self.picks.sort_out(&mut kinds);
        let known = Known {
            marked: self,
            kinds: &kinds[..n],
        };
        known.put_list(out)
    }

    // The same. A few picks are looked up one by one.
    fn put_among(self, out: &mut [u8]) -> bool
        ensures value { result ≡ has_room (named_of self.entry.picks) out.old }
        ensures out_after { out.new ≡ put_if (named_of self.entry.picks) out.old }
    {
        if FEW_PICKS < molecule::fix_count(self.picks.picked) as usize {
            return self.index_busy(out);
        }
        let known = Known {
            marked: self,
            kinds: &[],
        };
        known.put_list(out)
    }
}

impl<'a> Known<'a> {
    // Whether pick i is busy, and no pick before it is the same.
    fn is_first(self, i: usize) -> bool
        requires i_bound { i < fix_count self.marked.picks.picked.now }
        ensures { result ≡ is_first (among_of self.entry.marked.picks) (point_of self.entry.marked.picks.picked.now) i }
    {
        if i < self.kinds.len() {
            return self.kinds[i] == Kind::Busy;
        }
        self.marked.look_up(i)
    }

    // How many picks are busy, each counted once.
    fn count_busy(self) -> u32
        ensures { result ≡ length (named_of self.entry.marked.picks) }
    {
        let mut count: u32 = 0;
        for i in 0..molecule::fix_count(self.marked.picks.picked) as usize {
            if self.is_first(i) {
                count += 1;
            }
        }
        count
    }

    // Puts those picks, one after the other from `at` on. By a loop of its own: see `put_points` of crate hold_records.
    fn put_busy(self, out: &mut [u8], at: usize) -> usize
        requires in_bounds { at + 36 * length (named_of self.marked.picks) ≤ length out.old }
        ensures { Put out.old at (points_bytes (named_of self.entry.marked.picks)) out.new result }
    {
        let picked = self.marked.picks.picked;
        let mut to = at;
        for i in 0..molecule::fix_count(picked) as usize {
            if self.is_first(i) {
                to = out_points::put_out_point(out, to, out_points::point_of(picked, i));
            }
        }
        to
    }

    // Puts the list of the busy picks at the start of out, and answers whether there is room for all of it: else it puts nothing.
    fn put_list(self, out: &mut [u8]) -> bool
        ensures value { result ≡ has_room (named_of self.entry.marked.picks) out.old }
        ensures out_after { out.new ≡ put_if (named_of self.entry.marked.picks) out.old }
    {
        let n = self.count_busy();
        if !out_points::fits(n, out.len()) {
            return false;
        }
        let at = write::put_u32(out, 0, n);
        self.put_busy(out, at);
        true
    }
}

// Puts what the picks are by an index of them, unless they are few, and answers for how many it does so.
fn sort_many(picks: Picks<'_>, kinds: &mut [Kind]) -> usize
    ensures { KindsOf picks.entry result kinds.new }
{
    if molecule::fix_count(picks.picked) as usize <= FEW_PICKS {
        return 0;
    }
    picks.sort_out(kinds)
}

// Puts what each pick is, as far as kinds goes.
pub fn put_kinds(picks: Picks<'_>, kinds: &mut [Kind])
    ensures { KindsOf picks.entry (min (fix_count picks.entry.picked.now) (length kinds.new)) kinds.new }
{
    let mut marks = [false; SLOTS];
    mark_both(picks, &mut marks);
    let known = sort_many(picks, kinds);
    let marked = Marked {
        picks,
        marks: &marks,
    };
    marked.look_up_from(known, kinds);
}

// Puts the list of the picks that a table holds, or that are spent, each once, and answers whether there is room for all of it: else it puts nothing.
pub fn put_unavailable(h: Held, picked: &[u8], spent: &[u8], out: &mut [u8]) -> bool
    ensures value { result ≡ has_room (firsts (is_busy (records_of h) (points spent.now)) [] (points picked.now)) out.old }
    ensures out_after { out.new ≡ put_if (firsts (is_busy (records_of h) (points spent.now)) [] (points picked.now)) out.old }
{
    let mut cells = [0u8; CELLS_BYTES];
    hold_records::list_cells(h, &mut cells);
    let picks = Picks {
        cells: &cells,
        picked,
        spent,
    };
    let mut marks = [false; SLOTS];
    mark_both(picks, &mut marks);
    let marked = Marked {
        picks,
        marks: &marks,
    };
    marked.put_among(out)
}
