// Each call on the table of holds with, beside its own contract, that it is a step of a list of calls (`Called`, crates/table_laws): the laws over such
// lists are about calls of the code, and have the parameters of those, one by one. `Funded`, `Watched`, `Locked` and `Took` are what those laws say of a call
// that is done. The same for a lent table in `lent`, and for the exclusion map in `maps`.
#![tactic(auto, using(crate::proofs::Ways::ways))]

ghost use Rattle.std.specs.Prelude.{◌≡◌, ◌≤◌, IfOk};
ghost use Rattle.hold_records.specs.Holds.{records_of, told, hold_funding, release_for_watchtower, hold_for_watchtower, lock_held, take_cells, after_lock};
ghost use Rattle.hold_records.specs.Holds.{after_take};
ghost use Rattle.table_laws.specs.Holds.{by_value, table_after, Called, Funded, Watched, Locked, Took};

use error::Refusal;
use hold_records::{Held, Taker};
use transaction_writer::are_bytes;
use units::Millis;

pub mod lent;
pub mod maps;

pub fn hold_funding(held: Held, holder: u64, cells: &[u8]) -> Result<Held, Refusal>
    ensures held_value { told result ≡ hold_funding (records_of held) holder cells.now }
    ensures count_bound { IfOk result (λ g. g.count ≤ 256) }
    ensures called { Called by_value held (table_after held result) }
    ensures funded { IfOk result (λ g. Funded by_value held g holder cells.now) }
{
    held_cells::hold_funding(held, holder, cells)
}

pub fn release_for_watchtower(held: Held, cells: &[u8]) -> Result<Held, Refusal>
    ensures held_value { told result ≡ release_for_watchtower (records_of held) cells.now }
    ensures count_bound { IfOk result (λ g. g.count ≤ 256) }
    ensures called { Called by_value held (table_after held result) }
{
    watchtower_holds::release_for_watchtower(held, cells)
}

pub fn hold_for_watchtower(held: Held, cells: &[u8], time: Millis) -> Result<Held, Refusal>
    ensures held_value { told result ≡ hold_for_watchtower (records_of held) cells.now time }
    ensures count_bound { IfOk result (λ g. g.count ≤ 256) }
    ensures called { Called by_value held (table_after held result) }
    ensures watched { IfOk result (λ g. Watched by_value held g cells.now time) }
{
    watchtower_holds::hold_for_watchtower(held, cells, time)
}

pub fn lock_held(held: Held, time: Millis, out: &mut [u8]) -> Result<Held, Refusal>
    ensures out_after { (told result, out.new) ≡ after_lock (lock_held (records_of held) time) out.old }
    ensures count_bound { IfOk result (λ g. g.count ≤ 256) }
    ensures called { Called by_value held (table_after held result) }
    ensures locked { IfOk result (λ g. Locked by_value held g time out.new) }
{
    held_cells::lock_held(held, time, out)
}

pub fn take(
    held: Held,
    picked: &[u8],
    spent: &[u8],
    taker: Taker,
    time: Millis,
    taken: &mut [u8],
    refused: &mut [u8],
) -> Result<Held, Refusal>
    ensures after { (told result, taken.new, refused.new) ≡ after_take (take_cells (records_of held) picked.now spent.now taker time) taken.old refused.old }
    ensures count_bound { IfOk result (λ g. g.count ≤ 256) }
    ensures called { Called by_value held (table_after held result) }
    ensures took { IfOk result (λ g. Took by_value held g picked.now spent.now taker time taken.new refused.new) }
{
    are_bytes(picked);
    held_cells::take(held, picked, spent, taker, time, taken, refused)
}
