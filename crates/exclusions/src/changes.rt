// The exclusion map as lent bytes: what a call does to them, in place.
#![tactic(auto, using(crate::proofs::ChangesWays::ways))]

ghost use Rattle.std.specs.Prelude.{◌≡◌, false, ◌+◌, ◌*◌, ◌≤◌, ◌<◌, length, drop};
ghost use Rattle.molecule.specs.Layout.{fix_count};
ghost use Rattle.molecule.specs.Write.{splice};
ghost use Rattle.exclusion_entries.specs.Entries.{entries_bytes, map_bytes, entry_size, excluded_at};
ghost use Rattle.exclusion_entries.specs.Inner.{keeps, takes, stay};
ghost use Rattle.exclusions.specs.Inner.{gives, sift_one, sift_one_bytes, entry_with, with_entry, entries_after, Found, pass_end};

use crate::entry::NewEntry;
use exclusion_entries::{Rule, Survey};
use molecule::write;
use transaction_writer::are_bytes;

// Where a pass is that moves the entries together that stay: the next entry, the place for it, and whether one has given its place.
#[derive(Clone, Copy, Debug, PartialEq, Eq, Hash)]
struct Sift {
    at: usize,
    to: usize,
    taken: bool,
}

// Whether the entry at the start of x is the first that gives its place.
#[tactic(auto, unfolding(crate::specs::Inner::gives))]
fn gives(rule: Rule, taken: bool, x: &[u8]) -> bool
    ensures { result ≡ gives rule taken x.now }
{
    !taken && exclusion_entries::takes(rule, x)
}

// Moves the next entry if it stays. Entries have sizes of their own and are written where they are read: what lends them one by one would hold the bytes.
fn sift_one(s: &mut [u8], rule: Rule, c: Sift) -> Sift
    requires to_le_at { c.to ≤ c.at }
    requires s_in_bounds { c.at + entry_size (drop c.at s.old) ≤ length s.old }
    ensures value { result ≡ sift_one rule c s.old }
    ensures s_after { s.new ≡ sift_one_bytes rule c s.old }
{
    let at = c.at;
    let to = c.to;
    let x = molecule::part(s, at, s.len());
    let kept = exclusion_entries::keeps(rule, x);
    let gives = gives(rule, c.taken, x);
    let n = exclusion_entries::point_count(x);
    let size = exclusion_entries::entry_size(n);
    let next = at + size;
    if !kept {
        return Sift {
            at: next,
            to,
            taken: c.taken,
        };
    }
    if gives {
        return Sift {
            at: next,
            to,
            taken: true,
        };
    }
    s.copy_within(at..next, to);
    Sift {
        at: next,
        to: to + size,
        taken: c.taken,
    }
}

// ---- a whole pass

// A rule, and what the pass by it finds in a map. `Found` stands in what the functions here require, and not in the type: it is about the map too, which they
// change, so that the struct would have to hold it.
#[derive(Clone, Copy, Debug, PartialEq, Eq, Hash)]
pub(crate) struct Pass {
    pub(crate) rule: Rule,
    pub(crate) found: Survey,
}

impl Pass {
    // Moves the entries together that stay. The count is left as it is.
    fn gather(self, s: &mut [u8])
        requires { Found self s.old }
        ensures { s.new ≡ splice s.old 4 (entries_bytes (stay (keeps self.rule) (takes self.rule) false (excluded_at s.old))) }
    {
        are_bytes(s);
        let n = molecule::word(s, 0) as usize;
        let at = self.found.from;
        let mut c = Sift {
            at,
            to: at,
            taken: false,
        };
        for _ in self.found.index..n {
            c = sift_one(s, self.rule, c);
        }
    }

    // Puts the entry at its place, with those behind it behind it, and the count.
    fn put_new(self, s: &mut [u8], added: NewEntry<'_>)
        requires place_bound { self.found.place ≤ pass_end self }
        requires stays_bound { self.found.stays < 64 }
        requires in_bounds { pass_end self + (48 + 36 * fix_count added.inputs.now) ≤ length s.old }
        ensures { s.new ≡ with_entry self (entry_with added.entry.hash added.entry.inputs.now) s.old }
    {
        let place = self.found.place;
        let end = 4 + 48 * self.found.stays + 36 * self.found.points;
        let size = exclusion_entries::entry_size(added.point_count());
        s.copy_within(place..end, place + size);
        added.put(s, place);
        write::put_u32(s, 0, self.found.stays as u32 + 1);
    }

    // Leaves the entries that stay, and the new one at its place.
    pub(crate) fn replace(self, s: &mut [u8], added: NewEntry<'_>)
        requires found { Found self s.old }
        requires stays_bound { self.found.stays < 64 }
        requires points_bound { self.found.points + fix_count added.inputs.now ≤ 512 }
        ensures { s.new ≡ splice s.old 0 (map_bytes (entries_after self.rule added.entry.hash added.entry.inputs.now (excluded_at s.old))) }
    {
        self.gather(s);
        self.put_new(s, added);
    }

    // Leaves only the entries that stay.
    pub(crate) fn drop_others(self, s: &mut [u8])
        requires { Found self s.old }
        ensures { s.new ≡ splice s.old 0 (map_bytes (stay (keeps self.rule) (takes self.rule) false (excluded_at s.old))) }
    {
        self.gather(s);
        write::put_u32(s, 0, self.found.stays as u32);
    }
}
