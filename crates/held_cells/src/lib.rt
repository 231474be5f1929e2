// The node's own cells that a transaction of its own spends before it is committed: the table goes in by value and comes back by value, and the
// caller of a refused call still has the very table that it lent. Parameters stand one by one, as in the C functions of the calls: a struct would be made there
// for each single call.
#![tactic(auto, using(crate::proofs::Ways::ways))]

ghost use Rattle.std.specs.Prelude.{◌≡◌, ◌++◌, map, ◌+◌, ◌-◌, ◌<◌, ◌≤◌, IfOk};
ghost use Rattle.error.specs.Refusal.{answered};
ghost use Rattle.molecule.specs.Layout.{fix_count};
ghost use Rattle.out_points.specs.OutPoints.{points};
ghost use Rattle.out_points.specs.Tables.{after_list};
ghost use Rattle.hold_records.specs.declared.{Owner.Owner, Held.Held};
ghost use Rattle.hold_records.specs.Holds.{records_of, told, held_by, hold_funding, lock_held, unavailable, owner_for, take_cells, after_lock, after_take};

use error::{Answer, Refusal};
use hold_records::{Held, Hold, MOST_RECORDS, Owner, Rule, Taker};
use units::Millis;

// How long a cell that the watchtower took stays held while its transaction is built and sent.
pub const WATCHTOWER_PICK_HOLD_MS: u64 = 60_000;

// The table with a funding record last for each of the cells. No `push`: see `tally` of crate picks.
fn append(h: Held, holder: u64, cells: &[u8]) -> Held
    requires { h.count + fix_count cells.now ≤ 256 }
    ensures result_value { records_of result ≡ records_of h ++ map (held_by (Owner.Funding holder)) (points cells.now) }
    ensures count_bound { result.count ≤ 256 }
{
    let mut g = h;
    for i in 0..molecule::fix_count(cells) as usize {
        let point = out_points::point_of(cells, i);
        let owner = Owner::Funding(holder);
        let last = g.count;
        g.records[last] = Hold { point, owner };
        g.count = last + 1;
    }
    g
}

// Who holds what the taker takes.
fn owner_for(taker: Taker, time: Millis) -> Owner
    ensures { result ≡ owner_for taker time }
{
    match taker {
        Taker::Funding(holder) => Owner::Funding(holder),
        Taker::Watchtower => {
            Owner::Watchtower(time.saturating_add(Millis(WATCHTOWER_PICK_HOLD_MS)))
        }
    }
}

// The funding inputs that `holder` holds now, in place of the ones that it held before.
pub fn hold_funding(held: Held, holder: u64, cells: &[u8]) -> Result<Held, Refusal>
    ensures held_value { told result ≡ hold_funding (records_of held) holder cells.now }
    ensures count_bound { IfOk result (λ g. g.count ≤ 256) }
{
    if !transaction::is_out_points(cells) {
        return Err(Refusal::LentBytesUnreadable);
    }
    let rest = hold_records::keep(held, Rule::NotOf(holder));
    let count = rest.count;
    let n = molecule::fix_count(cells) as usize;
    if MOST_RECORDS - count < n {
        return Err(Refusal::TooManyHolds);
    }
    Ok(append(rest, holder, cells))
}

// Every cell that is held, for a collector to pick none of them. The watchtower's cells past their hold are let go first.
pub fn lock_held(held: Held, time: Millis, out: &mut [u8]) -> Result<Held, Refusal>
    ensures out_after { (told result, out.new) ≡ after_lock (lock_held (records_of held) time) out.old }
    ensures count_bound { IfOk result (λ g. g.count ≤ 256) }
{
    let left = hold_records::keep(held, Rule::Live(time));
    if !hold_records::put_cells(left, 0, out) {
        return Err(Refusal::BufferTooShort);
    }
    Ok(left)
}

// The cells of `picked` that `take` would refuse at `time`, held or in `spent`, without holding any.
pub fn unavailable(held: Held, picked: &[u8], spent: &[u8], time: Millis, out: &mut [u8]) -> Answer
    ensures { (answered result, out.new) ≡ after_list (unavailable (records_of held) picked.now spent.now time) out.old }
{
    if !transaction::is_out_points(picked) {
        return Err(Refusal::LentBytesUnreadable);
    }
    if !transaction::is_out_points(spent) {
        return Err(Refusal::LentBytesUnreadable);
    }
    let left = hold_records::keep(held, Rule::Live(time));
    if !unavailable_picks::put_unavailable(left, picked, spent, out) {
        return Err(Refusal::BufferTooShort);
    }
    Ok(())
}

// Takes the cells `picked` for `taker`: a cell that is held already, or one in `spent`, is refused, and every other one is held for `taker` before
// this returns. The lists of the taken cells and of the refused ones go into the two buffers.
pub fn take(
    held: Held,
    picked: &[u8],
    spent: &[u8],
    taker: Taker,
    time: Millis,
    taken: &mut [u8],
    refused: &mut [u8],
) -> Result<Held, Refusal>
    ensures after { (told result, taken.new, refused.new) ≡ after_take (take_cells (records_of held) picked.now spent.now taker time) taken.old refused.old }
    ensures count_bound { IfOk result (λ g. g.count ≤ 256) }
{
    if !transaction::is_out_points(picked) {
        return Err(Refusal::LentBytesUnreadable);
    }
    if !transaction::is_out_points(spent) {
        return Err(Refusal::LentBytesUnreadable);
    }
    let live = hold_records::keep(held, Rule::Live(time));
    let owner = owner_for(taker, time);
    picks::take_from(live, picked, spent, owner, taken, refused)
}
