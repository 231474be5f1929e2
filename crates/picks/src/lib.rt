// What `take` makes of picks: those that are free, each once, are recorded, and two lists are written.
#![tactic(auto, using(crate::proofs::Ways::ways))]

ghost use Rattle.std.specs.Prelude.{◌≡◌, ◌&&◌, ◌+◌, ◌*◌, ◌≤◌, ◌<◌, min, nat_le, length, drop, IfOk};
ghost use Rattle.molecule.specs.Layout.{fix_count};
ghost use Rattle.molecule.specs.Write.{Put};
ghost use Rattle.out_points.specs.OutPoints.{points, points_bytes};
ghost use Rattle.out_points.specs.Tables.{with_list};
ghost use Rattle.hold_records.specs.declared.{Held.Held};
ghost use Rattle.hold_records.specs.Holds.{records_of, told, cells_of, take_free, after_take};
ghost use Rattle.hold_records.specs.Inner.{put_if};
ghost use Rattle.picks.specs.Inner.{is_free, free_of, left_of, Tallied, take_split};

use error::Refusal;
use hold_records::{Held, Hold, MOST_RECORDS, Owner};
use molecule::write;
use pick_kinds::{Kind, MOST_PICKS, Picks};
use unavailable_picks::CELLS_BYTES;

// How many picks are taken, and the table with a record for each, as far as there is room. No ==: `Held` has none.
#[derive(Clone, Copy, Debug)]
struct Taken {
    held: Held,
    count: u32,
}

// Whether lists of so many out points may be written to buffers of so many bytes.
fn both_fit(count: u32, taken: usize, rest: u32, refused: usize) -> bool
    ensures { result ≡ nat_le (4 + 36 * count) (min taken 133116) && nat_le (4 + 36 * rest) (min refused 133116) }
{
    out_points::fits(count, taken) && out_points::fits(rest, refused)
}

// The picks, and what each of them is.
#[derive(Clone, Copy, Debug, PartialEq, Eq)]
struct Sorted<'a> {
    picked: &'a [u8],
    kinds: &'a [Kind],
    ghost enough: { fix_count picked.now ≤ length kinds.now },
}

impl<'a> Sorted<'a> {
    // Whether pick i is free, and no pick before it is the same.
    fn is_free(self, i: usize) -> bool
        requires { i < length self.kinds.now }
        ensures { result ≡ is_free self.entry.kinds.now i }
    {
        self.kinds[i] == Kind::Free
    }

    // What the free picks come to. No `push` puts a record last: it would answer whether there is room, and each of its three callers does something else where
    // there is none (`append` of crate held_cells has made sure of it, this goes on counting, `renew_from` of crate watchtower_holds refuses).
    fn tally(self, h: Held, owner: Owner) -> Taken
        ensures { Tallied owner (free_of self.entry.picked.now self.entry.kinds.now) h result.held result.count }
    {
        let n = molecule::fix_count(self.picked) as usize;
        let from = hold_records::used(h.count);
        let mut g = h;
        g.count = from;
        let mut count: u32 = 0;
        for i in 0..n {
            if !self.is_free(i) {
                continue;
            }
            count += 1;
            let last = g.count;
            if MOST_RECORDS <= last {
                continue;
            }
            let point = out_points::point_of(self.picked, i);
            g.records[last] = Hold { point, owner };
            g.count = last + 1;
        }
        Taken { held: g, count }
    }

    // Puts the picks that are not taken, one after the other from `at` on. By a loop of its own: see `put_points` of crate hold_records.
    fn put_refused(self, out: &mut [u8], at: usize) -> usize
        requires { at + 36 * length (left_of self.picked.now self.kinds.now) ≤ length out.old }
        ensures { Put out.old at (points_bytes (left_of self.entry.picked.now self.entry.kinds.now)) out.new result }
    {
        let n = molecule::fix_count(self.picked) as usize;
        let mut to = at;
        for i in 0..n {
            if self.is_free(i) {
                continue;
            }
            let p = out_points::point_of(self.picked, i);
            to = out_points::put_out_point(out, to, p);
        }
        to
    }

    // Puts the list of those picks, which are n, at the start of out.
    fn put_refused_list(self, n: u32, out: &mut [u8])
        requires n_value { n ≡ length (left_of self.picked.now self.kinds.now) }
        requires in_bounds { 4 + 36 * n ≤ length out.old }
        ensures { out.new ≡ with_list (left_of self.entry.picked.now self.entry.kinds.now) out.old }
    {
        let at = write::put_u32(out, 0, n);
        self.put_refused(out, at);
    }

    // Puts both lists: the cells of the records from `from` on, and the n picks that are not taken.
    fn put_both(self, g: Held, from: usize, n: u32, taken: &mut [u8], refused: &mut [u8])
        requires n_value { n ≡ length (left_of self.picked.now self.kinds.now) }
        requires in_bounds { 4 + 36 * n ≤ length refused.old }
        ensures taken_after { taken.new ≡ put_if (cells_of (drop from (records_of g))) taken.old }
        ensures refused_after { refused.new ≡ with_list (left_of self.entry.picked.now self.entry.kinds.now) refused.old }
    {
        hold_records::put_cells(g, from, taken);
        self.put_refused_list(n, refused);
    }

    // Takes the free picks.
    fn take(
        self,
        live: Held,
        owner: Owner,
        taken: &mut [u8],
        refused: &mut [u8],
    ) -> Result<Held, Refusal>
        ensures after { (told result, taken.new, refused.new)
            ≡ take_split (records_of live) self.entry.picked.now self.entry.kinds.now owner taken.old refused.old }
        ensures count_bound { IfOk result (λ g. g.count ≤ 256) }
    {
        let t = self.tally(live, owner);
        let count = t.count;
        let n = molecule::fix_count(self.picked);
        let rest = n - count;
        if !both_fit(count, taken.len(), rest, refused.len()) {
            return Err(Refusal::BufferTooShort);
        }
        let from = hold_records::used(live.count);
        if MOST_RECORDS - from < count as usize {
            return Err(Refusal::TooManyHolds);
        }
        let after = t.held;
        self.put_both(after, from, rest, taken, refused);
        Ok(after)
    }
}

// Takes the picks that no record of `live` holds. More picks than two lists hold are refused.
pub fn take_from(
    live: Held,
    picked: &[u8],
    spent: &[u8],
    owner: Owner,
    taken: &mut [u8],
    refused: &mut [u8],
) -> Result<Held, Refusal>
    ensures after { (told result, taken.new, refused.new) ≡ after_take (take_free (records_of live) picked.now spent.now owner) taken.old refused.old }
    ensures count_bound { IfOk result (λ g. g.count ≤ 256) }
{
    let n = molecule::fix_count(picked) as usize;
    if MOST_PICKS < n {
        return Err(Refusal::BufferTooShort);
    }
    let mut cells = [0u8; CELLS_BYTES];
    hold_records::list_cells(live, &mut cells);
    let picks = Picks {
        cells: &cells,
        picked,
        spent,
    };
    let mut kinds = [Kind::Again; MOST_PICKS];
    unavailable_picks::put_kinds(picks, &mut kinds);
    let sorted = Sorted {
        picked,
        kinds: &kinds,
    };
    sorted.take(live, owner, taken, refused)
}
