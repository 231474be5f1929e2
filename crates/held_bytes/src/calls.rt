// The calls on a lent table of holds. A table of another length is refused before all else, and a refusal leaves its bytes and the buffers as they were.
// Parameters stand one by one, as in the C functions of the calls: a struct would be made there for each single call.
#![tactic(auto, using(crate::proofs::Ways::ways), unfolding(crate::specs::HeldBytes::held_at))]

ghost use Rattle.std.specs.Prelude.{◌≡◌, length};
ghost use Rattle.error.specs.Refusal.{answered};
ghost use Rattle.hold_records.specs.declared.{Held.Held};
ghost use Rattle.hold_records.specs.Holds.{told};
ghost use Rattle.table_bytes.specs.Lent.{on_table, Leaves};
ghost use Rattle.held_bytes.specs.HeldBytes.{held_size, held_of, held_table};
ghost use Rattle.held_bytes.specs.Calls.{HoldsFunding, HoldsForWatchtower, ReleasesForWatchtower, LocksHeld, NamesUnavailable, TakesCells};

use crate::HELD_BYTES;
use error::{Answer, Refusal};
use hold_records::{Held, Rule, Taker};
use units::Millis;

// Writes the table that a call returned, if the call is done. Within its callers, as `on_table` is.
#[inline(always)]
fn leave(s: &mut [u8], r: Result<Held, Refusal>) -> Answer
    requires { length s.old ≡ held_size }
    ensures { Leaves held_table s.old (answered result) s.new (told r) }
{
    let h = r?;
    crate::write_held(h, s);
    Ok(())
}

// Makes a call on the lent table, by value. Within its callers: in a call of its own the table, of 14 KB, is copied once more. Three calls test the length
// themselves: `lock_held` reads no more than the live records, `unavailable` writes no table, and for `take` by a closure the proof of what its two buffers are
// after did not close.
#[inline(always)]
fn on_table<F: FnOnce(Held) -> Result<Held, Refusal>>(s: &mut [u8], call: F) -> Answer
    requires { F.IsAlwaysCallable call }
    ensures { (o : _) → ((r : _) → F.post call (held_of s.old) r → told r ≡ o) → Leaves held_table s.old (answered result) s.new (on_table held_table s.old o) }
{
    if s.len() != HELD_BYTES {
        return Err(Refusal::LentBytesUnreadable);
    }
    let r = call(crate::read_held(s));
    leave(s, r)
}

// The funding inputs that `holder` holds now, in place of the ones that it held before.
pub fn hold_funding(held: &mut [u8], holder: u64, cells: &[u8]) -> Answer
    ensures { HoldsFunding held_table held.old (answered result) held.new holder cells.now }
{
    on_table(held, |h| held_cells::hold_funding(h, holder, cells))
}

// The cells of a transaction that the watchtower sent are held from `time` on.
pub fn hold_for_watchtower(held: &mut [u8], cells: &[u8], time: Millis) -> Answer
    ensures { HoldsForWatchtower held_table held.old (answered result) held.new cells.now time }
{
    on_table(
        held,
        |h| watchtower_holds::hold_for_watchtower(h, cells, time),
    )
}

// The cells of a transaction that the watchtower could not send are free again.
pub fn release_for_watchtower(held: &mut [u8], cells: &[u8]) -> Answer
    ensures { ReleasesForWatchtower held_table held.old (answered result) held.new cells.now }
{
    on_table(held, |h| watchtower_holds::release_for_watchtower(h, cells))
}

// Writes every cell that is held at `time`; watchtower records that have ended are dropped.
pub fn lock_held(held: &mut [u8], time: Millis, out: &mut [u8]) -> Answer
    ensures { LocksHeld held_table held.old (answered result) held.new time out.old out.new }
{
    if held.len() != HELD_BYTES {
        return Err(Refusal::LentBytesUnreadable);
    }
    let left = crate::read_kept(held, Rule::Live(time));
    if !hold_records::put_cells(left, 0, out) {
        return Err(Refusal::BufferTooShort);
    }
    leave(held, Ok(left))
}

// The cells of `picked` that are held at `time` or in `spent`.
pub fn unavailable(held: &[u8], picked: &[u8], spent: &[u8], time: Millis, out: &mut [u8]) -> Answer
    ensures { NamesUnavailable held_table held.now (answered result) picked.now spent.now time out.old out.new }
{
    if held.len() != HELD_BYTES {
        return Err(Refusal::LentBytesUnreadable);
    }
    let h = crate::read_held(held);
    held_cells::unavailable(h, picked, spent, time, out)
}

// Takes the cells `picked` for `taker`: the lists of the taken cells and of the refused ones go into the two buffers.
pub fn take(
    held: &mut [u8],
    picked: &[u8],
    spent: &[u8],
    taker: Taker,
    time: Millis,
    taken: &mut [u8],
    refused: &mut [u8],
) -> Answer
    ensures { TakesCells held_table held.old (answered result) held.new picked.now spent.now taker time taken.old refused.old taken.new refused.new }
{
    if held.len() != HELD_BYTES {
        return Err(Refusal::LentBytesUnreadable);
    }
    let h = crate::read_held(held);
    let r = held_cells::take(h, picked, spent, taker, time, taken, refused);
    leave(held, r)
}
