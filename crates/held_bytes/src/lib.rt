// The table of holds as lent bytes.
#![tactic(auto, using(crate::proofs::Ways::ways))]

ghost use Rattle.std.specs.Prelude.{◌≡◌, ◌≤◌, length};
ghost use Rattle.molecule.specs.Write.{put_at};
ghost use Rattle.std.specs.List.{filter};
ghost use Rattle.hold_records.specs.Holds.{records_of};
ghost use Rattle.hold_records.specs.Inner.{is_kept};
ghost use Rattle.table_bytes.specs.Places.{FitPlace};
ghost use Rattle.held_bytes.specs.HeldBytes.{held_size, hold_of, place_for, held_of, held_at, held_bytes};

use hold_records::{Held, Hold, MOST_RECORDS, Owner, Rule};
use molecule::write;
use table_bytes::Place;
use units::Millis;

pub mod calls;

// How many bytes a lent table has: a count and a place for each record.
pub const HELD_BYTES: usize = 4 + 48 * MOST_RECORDS;

// What a place holds: kind 0 is a funding, and the number its holder; any other the watchtower, and the number the end.
// No `From`, here and below: neither type is of this crate, and such an impl is refused.
fn hold_of(p: Place) -> Hold
    ensures { result ≡ hold_of p }
{
    let point = p.point;
    if p.kind == 0 {
        let owner = Owner::Funding(p.number);
        return Hold { point, owner };
    }
    let owner = Owner::Watchtower(Millis(p.number));
    Hold { point, owner }
}

// A record as a place.
fn place_for(r: Hold) -> Place
    ensures value { result ≡ place_for r }
    ensures fit_place { FitPlace result }
{
    let point = r.point;
    match r.owner {
        Owner::Funding(number) => Place {
            point,
            kind: 0,
            number,
        },
        Owner::Watchtower(end) => Place {
            point,
            kind: 1,
            number: end.0,
        },
    }
}

// The table that the bytes mean.
pub fn read_held(s: &[u8]) -> Held
    ensures { result ≡ held_of s.now }
{
    let mut g = hold_records::empty();
    for i in 0..MOST_RECORDS {
        g.records[i] = hold_of(table_bytes::place_of(s, i));
    }
    g.count = molecule::word(s, 0) as usize;
    g
}

// The records of the lent table that `rule` keeps, in order: no other place is read.
pub fn read_kept(s: &[u8], rule: Rule) -> Held
    ensures result_value { records_of result ≡ filter (is_kept rule) (records_of (held_of s.now)) }
    ensures count_bound { result.count ≤ 256 }
{
    let mut g = hold_records::empty();
    let count = molecule::word(s, 0) as usize;
    let n = hold_records::used(count);
    let mut to: usize = 0;
    for i in 0..n {
        let x = hold_of(table_bytes::place_of(s, i));
        if !hold_records::kept(x, rule) {
            continue;
        }
        g.records[to] = x;
        to += 1;
    }
    g.count = to;
    g
}

// Puts the table at the start of s, and nothing where there is no room for its records; the bytes behind them keep their value.
pub fn write_held(h: Held, s: &mut [u8])
    ensures s_after { s.new ≡ put_at s.old 0 (held_bytes (records_of h)) }
    ensures s_after_2 { held_size ≤ length s.old → held_at s.new ≡ records_of h }
{
    let n = hold_records::used(h.count);
    if s.len() < 4 + 48 * n {
        return;
    }
    let mut to = write::put_u32(s, 0, n as u32);
    for i in 0..n {
        to = table_bytes::put_place(s, to, place_for(h.records[i]));
    }
}
