// Records of holds on cells, and what works on them alone: the table goes in by value and comes back by value.
#![tactic(auto, using(crate::proofs::Ways::ways), unfolding(crate::specs::Holds::is_live, crate::specs::Holds::is_not_of, crate::specs::Holds::by_owner, crate::specs::Inner::is_kept))]

ghost use Rattle.std.specs.Prelude.{◌≡◌, true, false, [], ◌+◌, ◌-◌, ◌*◌, ◌≤◌, min, length, drop};
ghost use Rattle.molecule.specs.Partial.{All};
ghost use Rattle.molecule.specs.Write.{Put};
ghost use Rattle.out_points.specs.OutPoints.{Fit, points, points_bytes};
ghost use Rattle.std.specs.List.{filter};
ghost use Rattle.out_points.specs.Tables.{has_room};
ghost use Rattle.hold_records.specs.Inner.{is_kept, put_if};
ghost use Rattle.hold_records.specs.Holds.{records_of, cells_of, empty_table, is_not_of, is_live};

use molecule::write;
use out_points::OutPoint;
use units::Millis;

// The most records that a table holds.
pub const MOST_RECORDS: usize = 256;

// Who holds a cell: an opening's funding, by its holder, or the watchtower, until an end.
#[derive(Clone, Copy, Debug, PartialEq, Eq, Hash)]
pub enum Owner {
    Funding(u64),
    Watchtower(Millis),
}

#[derive(Clone, Copy, Debug, PartialEq, Eq, Hash)]
pub struct Hold {
    pub point: OutPoint,
    pub owner: Owner,
}

// Who takes cells: the chain actor that builds an opening's funding, by its holder, or the watchtower.
#[derive(Clone, Copy, Debug, PartialEq, Eq, Hash)]
pub enum Taker {
    Funding(u64),
    Watchtower,
}

// The first `count` records stand; where `count` is beyond the array, all of it. No ==: one that is derived would tell tables apart by what is behind those.
// An array and its count, since there is no heap. That the count is 256 at most stands in the contracts: as an invariant here it would ask callers for it, who
// now may lend any count.
#[derive(Clone, Copy, Debug)]
pub struct Held {
    pub records: [Hold; 256],
    pub count: usize,
}

// Which records a table is to keep. No closure for it: a public function that calls one needs a `requires`, and the public functions here have none. For the
// same reason `held_bytes::read_kept`, which reads the records from bytes, and `without` of crate watchtower_holds, which goes by marks, have loops of their
// own.
#[derive(Clone, Copy, Debug, PartialEq, Eq, Hash)]
pub enum Rule {
    // All but the watchtower records that have ended.
    Live(Millis),
    // All but the funding records of this holder.
    NotOf(u64),
}

// A table that holds nothing.
pub fn empty() -> Held
    ensures result_value { records_of result ≡ [] }
    ensures value { result ≡ empty_table }
{
    let nobody = Hold {
        point: OutPoint::default(),
        owner: Owner::Funding(0),
    };
    Held {
        records: [nobody; 256],
        count: 0,
    }
}

// How many records stand.
pub fn used(count: usize) -> usize
    ensures { result ≡ min count 256 }
{
    count.min(MOST_RECORDS)
}

// Whether a record still holds at `now`: funding always, a watchtower until its end.
fn lives(r: Hold, now: Millis) -> bool
    ensures { result ≡ is_live now r }
{
    match r.owner {
        Owner::Funding(_) => true,
        Owner::Watchtower(end) => now < end,
    }
}

// Whether the record is not a funding record of `holder`.
fn not_of(r: Hold, holder: u64) -> bool
    ensures { result ≡ is_not_of holder r }
{
    match r.owner {
        Owner::Funding(n) => n != holder,
        Owner::Watchtower(_) => true,
    }
}

// Whether a table is to keep the record.
pub fn kept(r: Hold, rule: Rule) -> bool
    ensures { result ≡ is_kept rule r }
{
    match rule {
        Rule::Live(now) => lives(r, now),
        Rule::NotOf(holder) => not_of(r, holder),
    }
}

// The records that `rule` keeps, in order.
pub fn keep(h: Held, rule: Rule) -> Held
    ensures result_value { records_of result ≡ filter (is_kept rule) (records_of h) }
    ensures count_bound { result.count ≤ 256 }
{
    let n = used(h.count);
    let mut g = h;
    let mut to: usize = 0;
    for i in 0..n {
        let x = h.records[i];
        if kept(x, rule) {
            g.records[to] = x;
            to += 1;
        }
    }
    g.count = to;
    g
}

// The record's cell. A function: of a parameter it is known that its numbers fit their types, and not of an array's element.
fn cell_of(r: Hold) -> OutPoint
    ensures value { result ≡ r.point }
    ensures fit { Fit result }
{
    r.point
}

// Puts the cells of the records from `from` on, one after the other from `at` on. This list and the two of picks (`unavailable_picks`, `picks`) each have a
// loop of their own: one loop for all would be a public function over a closure that gives the points, and such a one needs a `requires`. Within its
// callers, as `put_cells` is: in calls of their own each would copy the table, of 14 KB.
#[inline(always)]
fn put_points(h: Held, from: usize, out: &mut [u8], at: usize) -> usize
    requires { at + 36 * (min h.count 256 - from) ≤ length out.old }
    ensures put { Put out.old at (points_bytes (cells_of (drop from (records_of h)))) out.new result }
    ensures all { All Fit (cells_of (drop from (records_of h))) }
{
    let n = used(h.count);
    let mut to = at;
    for i in from..n {
        to = out_points::put_out_point(out, to, cell_of(h.records[i]));
    }
    to
}

// Puts the list of the cells of the records from `from` on at the start of out, and answers whether there is room for all of it: else it puts nothing.
#[inline(always)]
pub fn put_cells(h: Held, from: usize, out: &mut [u8]) -> bool
    ensures value { result ≡ has_room (cells_of (drop from (records_of h))) out.old }
    ensures out_after { out.new ≡ put_if (cells_of (drop from (records_of h))) out.old }
    ensures listed { result ≡ true → points out.new ≡ cells_of (drop from (records_of h)) }
{
    let n = used(h.count).saturating_sub(from) as u32;
    if !out_points::fits(n, out.len()) {
        return false;
    }
    let at = write::put_u32(out, 0, n);
    put_points(h, from, out, at);
    true
}

// Puts the list of all cells at the start of out, where there is room for it: a list in bytes can be lent to a call for each pick, a table would be copied.
pub fn list_cells(h: Held, out: &mut [u8])
    ensures out_after { out.new ≡ put_if (cells_of (records_of h)) out.old }
    ensures out_after_2 { 9220 ≤ length out.old → points out.new ≡ cells_of (records_of h) }
{
    put_cells(h, 0, out);
}
