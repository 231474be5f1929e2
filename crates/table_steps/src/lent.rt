// Each call on a lent table of holds, with its own contract and as a step of a list of calls on successive bytes. Parameters are those of the
// call, one by one, as in its C function: a struct would be made there for each single call.
ghost use Rattle.std.specs.Prelude.{◌≡◌, IfOk};
ghost use Rattle.error.specs.Refusal.{answered};
ghost use Rattle.held_bytes.specs.HeldBytes.{held_at, held_table};
ghost use Rattle.held_bytes.specs.Calls.{HoldsFunding, ReleasesForWatchtower, HoldsForWatchtower, LocksHeld, TakesCells};
ghost use Rattle.table_laws.specs.Holds.{Called, Funded, Watched, Locked, Took, InRange};

use error::Answer;
use hold_records::Taker;
use transaction_writer::are_bytes;
use units::Millis;

pub fn hold_funding(held: &mut [u8], holder: u64, cells: &[u8]) -> Answer
    ensures held_after { HoldsFunding held_table held.old (answered result) held.new holder cells.now }
    ensures called { Called held_table held.old held.new }
    ensures funded { IfOk result (λ _. Funded held_table held.old held.new holder cells.now) }
{
    held_bytes::calls::hold_funding(held, holder, cells)
}

pub fn release_for_watchtower(held: &mut [u8], cells: &[u8]) -> Answer
    ensures held_after { ReleasesForWatchtower held_table held.old (answered result) held.new cells.now }
    ensures called { Called held_table held.old held.new }
{
    held_bytes::calls::release_for_watchtower(held, cells)
}

pub fn hold_for_watchtower(held: &mut [u8], cells: &[u8], time: Millis) -> Answer
    ensures held_after { HoldsForWatchtower held_table held.old (answered result) held.new cells.now time }
    ensures called { Called held_table held.old held.new }
    ensures watched { IfOk result (λ _. Watched held_table held.old held.new cells.now time) }
{
    held_bytes::calls::hold_for_watchtower(held, cells, time)
}

pub fn lock_held(held: &mut [u8], time: Millis, out: &mut [u8]) -> Answer
    ensures out_after { LocksHeld held_table held.old (answered result) held.new time out.old out.new }
    ensures called { Called held_table held.old held.new }
    ensures in_range { InRange (held_at held.old) }
    ensures locked { IfOk result (λ _. Locked held_table held.old held.new time out.new) }
{
    are_bytes(held);
    held_bytes::calls::lock_held(held, time, out)
}

pub fn take(
    held: &mut [u8],
    picked: &[u8],
    spent: &[u8],
    taker: Taker,
    time: Millis,
    taken: &mut [u8],
    refused: &mut [u8],
) -> Answer
    ensures after { TakesCells held_table held.old (answered result) held.new picked.now spent.now taker time taken.old refused.old taken.new refused.new }
    ensures called { Called held_table held.old held.new }
    ensures took { IfOk result (λ _. Took held_table held.old held.new picked.now spent.now taker time taken.new refused.new) }
{
    are_bytes(picked);
    held_bytes::calls::take(held, picked, spent, taker, time, taken, refused)
}
