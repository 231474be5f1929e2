// The watchtower's holds on cells: the table of holds goes in by value and comes back by value, and the caller of a refused call still has the very table that
// it lent. Parameters stand one by one, as in the C functions of the calls: a struct would be made there for each single call. Within, a function that only
// reads the table, of 14 KB, is lent it in place of a copy, and asks for its length, which is not known of an array behind a `&`.
#![tactic(auto, using(crate::proofs::Ways::ways))]

ghost use Rattle.std.specs.Prelude.{◌≡◌, [], ◌+◌, ◌-◌, ◌*◌, ◌<◌, ◌≤◌, min, not, false, length, get_or, set, IfOk};
ghost use Rattle.out_points.specs.OutPoints.{points, slot_of};
ghost use Rattle.std.specs.List.{filter};
ghost use Rattle.hold_records.specs.declared.{Owner.Owner, Held.Held};
ghost use Rattle.hold_records.specs.Holds.{records_of, told, is_unnamed, is_tower_on, renew_all, at_most_256, release_for_watchtower, hold_for_watchtower};
ghost use Rattle.watchtower_holds.specs.Inner.{tower_place, noted, Hints, mark_at, ReleaseMarks};

use arithmetic::little_endian;
use error::Refusal;
use hold_records::{Held, Hold, MOST_RECORDS, Owner};
use out_points::{OutPoint, SLOTS};
use units::Millis;

// How long the watchtower's cells stay held: a transaction of its not committed by then has left the pool, and its cells are free again.
pub const WATCHTOWER_HOLD_MS: u64 = 1_800_000;

// Two hints for each slot of out points: where the first of the watchtower's records of the slot stands, and one less than where any other may stand. Both are
// 255 where there is none: the last place, at which a record is looked at like at any other, and the place behind it. So 255 needs no case of its own, as the
// None of an Option would. No struct for them: `Hints` is a fact of hints and table together, which change in turn, so contracts would name both all the same.
const HINTS: usize = 2 * SLOTS;

// Where the first of the watchtower's records in the slot of p stands. If that is beyond the records, the slot has none.
fn first(hints: &[u8], p: OutPoint) -> usize
    ensures { result ≡ get_or hints.now (2 * slot_of p) 0 }
{
    let slot = out_points::slot(p);
    little_endian::byte(hints, 2 * slot) as usize
}

// From where on the others stand. If that is beyond the records, the slot has one at most.
fn next(hints: &[u8], p: OutPoint) -> usize
    ensures { result ≡ get_or hints.now (2 * slot_of p + 1) 0 + 1 }
{
    let slot = out_points::slot(p);
    little_endian::byte(hints, 2 * slot + 1) as usize + 1
}

// Sets a second hint, at `at`, so that `place` is behind it.
fn note_other(hints: &mut [u8], at: usize, place: usize)
    requires { (at < length hints.old) × (0 < place) × (place < 256) }
    ensures { hints.new ≡ set hints.old at (min (get_or hints.old at 0) (place - 1)) }
{
    hints[at] = hints[at].min((place - 1) as u8);
}

// Notes that a record of the watchtower's in the slot of p stands at `place`.
fn note(hints: &mut [u8], p: OutPoint, place: usize)
    requires { (length hints.old ≡ 8186) × (place < 256) }
    ensures { hints.new ≡ noted hints.old (slot_of p) place }
{
    let at = 2 * out_points::slot(p);
    let k = usize::from(hints[at]);
    if place < k {
        hints[at] = place as u8;
        return;
    }
    if k < place {
        note_other(hints, at + 1, place);
    }
}

// Whether the record is the watchtower's.
fn is_tower(r: Hold) -> bool
    ensures { result ≡ is_tower_on r.point r }
{
    match r.owner {
        Owner::Funding(_) => false,
        Owner::Watchtower(_) => true,
    }
}

// Notes the watchtower's records of the table.
fn note_all(h: &Held, hints: &mut [u8])
    requires { (length hints.old ≡ 8186) × (length h.now.records ≡ 256) }
    ensures { Hints hints.new h.now.records (min h.now.count 256) }
{
    let n = hold_records::used(h.count);
    for i in 0..n {
        let x = h.records[i];
        if is_tower(x) {
            note(hints, x.point, i);
        }
    }
}

// Whether the record is the watchtower's on p. It is lent, and the first word of its hash is compared before all else, which tells most records apart: where one
// is handed over all words are read and compared at once, which takes up to half as long again.
#[tactic(auto, using(crate::proofs::Ways::ways), unfolding(out_points::specs::OutPoints::eq_hash, out_points::specs::OutPoints::eq_point))]
fn tower_on(r: &Hold, p: OutPoint) -> bool
    ensures { result ≡ is_tower_on p r.now }
{
    if p.hash.a != r.point.hash.a {
        return false;
    }
    match r.owner {
        Owner::Funding(_) => false,
        Owner::Watchtower(_) => out_points::same_point(p, r.point),
    }
}

// Where the watchtower's first record on p stands, and where a new one goes if there is none. None stands before `from`.
fn tower_place(h: &Held, p: OutPoint, from: usize) -> usize
    requires { (length h.now.records ≡ 256) × (min from (min h.now.count 256) ≤ tower_place p (records_of h.now)) }
    ensures { result ≡ tower_place p (records_of h.now) }
{
    let n = hold_records::used(h.count);
    for i in from..n {
        if tower_on(&h.records[i], p) {
            return i;
        }
    }
    n
}

// The same records, with no count above 256.
fn trimmed(h: Held) -> Held
    ensures result_value { records_of result ≡ records_of h }
    ensures count_bound { result.count ≤ 256 }
    ensures same { (result.records ≡ h.records) × (result.count ≡ min h.count 256) }
{
    let mut g = h;
    g.count = hold_records::used(h.count);
    g
}

// How many records stand after one is put at `at`.
fn counted(count: usize, at: usize) -> usize
    requires { at < 256 }
    ensures { result ≡ count + (at + 1 - count) }
{
    count.max(at + 1)
}

// The watchtower's record on each of the cells lasts until `end`: in its place, or last (without a `push`: see `tally` of crate picks). More than one record is
// looked at only where a slot has more than one.
fn renew_from(h: &Held, cells: &[u8], end: Millis, hints: &mut [u8]) -> Result<Held, Refusal>
    requires { (length h.now.records ≡ 256) × Hints hints.old h.now.records (min h.now.count 256) }
    ensures held_value { told result ≡ at_most_256 (renew_all end (records_of h.now) (points cells.now)) }
    ensures count_bound { IfOk result (λ g. g.count ≤ 256) }
{
    let n = molecule::fix_count(cells) as usize;
    let mut g = trimmed(*h);
    for i in 0..n {
        let point = out_points::point_of(cells, i);
        let owner = Owner::Watchtower(end);
        let hold = Hold { point, owner };
        let last = g.count;
        let k = first(hints, point);
        if last <= k {
            if MOST_RECORDS <= last {
                return Err(Refusal::TooManyHolds);
            }
            g.records[last] = hold;
            g.count = last + 1;
            note(hints, point, last);
            continue;
        }
        if tower_on(&g.records[k], point) {
            g.records[k] = hold;
            continue;
        }
        let others = next(hints, point);
        let at = tower_place(&g, point, others);
        if MOST_RECORDS <= at {
            return Err(Refusal::TooManyHolds);
        }
        g.records[at] = hold;
        g.count = counted(last, at);
        note(hints, point, at);
    }
    Ok(g)
}

fn renew_all(h: &Held, cells: &[u8], end: Millis) -> Result<Held, Refusal>
    requires { length h.now.records ≡ 256 }
    ensures held_value { told result ≡ at_most_256 (renew_all end (records_of h.now) (points cells.now)) }
    ensures count_bound { IfOk result (λ g. g.count ≤ 256) }
{
    let mut hints = [255u8; HINTS];
    note_all(h, &mut hints);
    renew_from(h, cells, end, &mut hints)
}

// Marks the record at `at`, if it is `on` a cell.
fn mark(marks: &mut [bool], at: usize, on: bool)
    requires { at < length marks.old }
    ensures { marks.new ≡ mark_at marks.old at on }
{
    if on {
        marks[at] = true;
    }
}

// Marks the watchtower's records on the cells: for each cell the first of its slot, and the others, which are looked at only where a slot has more than one.
fn mark_all(h: &Held, cells: &[u8], hints: &[u8], marks: &mut [bool])
    requires { (length h.now.records ≡ 256) × Hints hints.now h.now.records (min h.now.count 256)
        × ReleaseMarks [] h.now.records (min h.now.count 256) marks.old }
    ensures { ReleaseMarks (points cells.now) h.now.records (min h.now.count 256) marks.new }
{
    let count = hold_records::used(h.count);
    let n = molecule::fix_count(cells) as usize;
    for i in 0..n {
        let p = out_points::point_of(cells, i);
        let k = first(hints, p);
        if count <= k {
            continue;
        }
        mark(marks, k, tower_on(&h.records[k], p));
        let others = next(hints, p);
        for j in others..count {
            mark(marks, j, tower_on(&h.records[j], p));
        }
    }
}

// Whether the record at `at` has no mark.
fn is_unmarked(marks: &[bool], at: usize) -> bool
    requires { at < length marks.now }
    ensures { result ≡ not (get_or marks.now at false) }
{
    !marks[at]
}

// The records without the watchtower's on `cells`.
fn without(h: &Held, cells: &[u8], hints: &[u8]) -> Held
    requires { (length h.now.records ≡ 256) × Hints hints.now h.now.records (min h.now.count 256) }
    ensures result_value { records_of result ≡ filter (is_unnamed (points cells.now)) (records_of h.now) }
    ensures count_bound { result.count ≤ 256 }
{
    let mut marks = [false; 256];
    mark_all(h, cells, hints, &mut marks);
    let n = hold_records::used(h.count);
    let mut g = *h;
    let mut to: usize = 0;
    for i in 0..n {
        let stays = is_unmarked(&marks, i);
        if stays {
            g.records[to] = h.records[i];
            to += 1;
        }
    }
    g.count = to;
    g
}

// The cells of a transaction that the watchtower could not send are free again.
pub fn release_for_watchtower(held: Held, cells: &[u8]) -> Result<Held, Refusal>
    ensures held_value { told result ≡ release_for_watchtower (records_of held) cells.now }
    ensures count_bound { IfOk result (λ g. g.count ≤ 256) }
{
    if !transaction::is_out_points(cells) {
        return Err(Refusal::LentBytesUnreadable);
    }
    let mut hints = [255u8; HINTS];
    note_all(&held, &mut hints);
    Ok(without(&held, cells, &hints))
}

// The cells of a transaction that the watchtower sent are held until `WATCHTOWER_HOLD_MS` after `time`.
pub fn hold_for_watchtower(held: Held, cells: &[u8], time: Millis) -> Result<Held, Refusal>
    ensures held_value { told result ≡ hold_for_watchtower (records_of held) cells.now time }
    ensures count_bound { IfOk result (λ g. g.count ≤ 256) }
{
    if !transaction::is_out_points(cells) {
        return Err(Refusal::LentBytesUnreadable);
    }
    let wait = Millis(WATCHTOWER_HOLD_MS);
    let end = time.saturating_add(wait);
    renew_all(&held, cells, end)
}
