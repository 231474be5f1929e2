// The calls on tables of cells that the caller keeps as bytes and lends to each call: thin functions over crates held_bytes, exclusions and
// exclusion_marks.
#![tactic(auto, using(crate::proofs::TableWays::ways))]

ghost use Rattle.std.specs.Prelude.{◌≡◌};
ghost use Rattle.held_bytes.specs.HeldBytes.{held_table};
ghost use Rattle.held_bytes.specs.Calls.{HoldsFunding, HoldsForWatchtower, ReleasesForWatchtower, LocksHeld, NamesUnavailable};
ghost use Rattle.exclusion_entries.specs.Calls.{Adds, Commits, Removes, Truncates, Migrates, Applies};
ghost use Rattle.capi.specs.Takes.{taker_for, TakesFor};

use hold_records::Taker;
use units::{BlockNumber, Millis};

// ---- holds

// The funding inputs that `holder` holds now, in place of the ones that it held before.
#[unsafe(no_mangle)]
pub extern "C" fn basinpantry_hold_funding(held: &mut [u8], holder: u64, cells: &[u8]) -> u32
    ensures { HoldsFunding held_table held.old result held.new holder cells.now }
{
    let a = held_bytes::calls::hold_funding(held, holder, cells);
    u32::from(error::number(a))
}

// The cells of a transaction that the watchtower sent at `time`.
#[unsafe(no_mangle)]
pub extern "C" fn basinpantry_hold_for_watchtower(held: &mut [u8], cells: &[u8], time: u64) -> u32
    ensures { HoldsForWatchtower held_table held.old result held.new cells.now (record { 0 = time }) }
{
    let now = Millis(time);
    let a = held_bytes::calls::hold_for_watchtower(held, cells, now);
    u32::from(error::number(a))
}

// The cells of a transaction that the watchtower could not send are free again.
#[unsafe(no_mangle)]
pub extern "C" fn basinpantry_release_for_watchtower(held: &mut [u8], cells: &[u8]) -> u32
    ensures { ReleasesForWatchtower held_table held.old result held.new cells.now }
{
    let a = held_bytes::calls::release_for_watchtower(held, cells);
    u32::from(error::number(a))
}

// Writes the out points of every cell that is held at `time`.
#[unsafe(no_mangle)]
pub extern "C" fn basinpantry_lock_held(held: &mut [u8], time: u64, out: &mut [u8]) -> u32
    ensures { LocksHeld held_table held.old result held.new (record { 0 = time }) out.old out.new }
{
    let now = Millis(time);
    let a = held_bytes::calls::lock_held(held, now, out);
    u32::from(error::number(a))
}

// Writes the out points of `picked` that are held at `time` or in `spent`.
#[unsafe(no_mangle)]
pub extern "C" fn basinpantry_unavailable(
    held: &[u8],
    picked: &[u8],
    spent: &[u8],
    time: u64,
    out: &mut [u8],
) -> u32
    ensures { NamesUnavailable held_table held.now result picked.now spent.now (record { 0 = time }) out.old out.new }
{
    let now = Millis(time);
    let a = held_bytes::calls::unavailable(held, picked, spent, now, out);
    u32::from(error::number(a))
}

// Who takes cells: the watchtower, or the funding of `holder`.
fn taker_for(watchtower: bool, holder: u64) -> Taker
    ensures { result ≡ taker_for watchtower holder }
{
    if watchtower {
        return Taker::Watchtower;
    }
    Taker::Funding(holder)
}

// Takes the cells `picked`: the lists of those taken and of those refused go into the two buffers.
#[unsafe(no_mangle)]
pub extern "C" fn basinpantry_take(
    held: &mut [u8],
    picked: &[u8],
    spent: &[u8],
    watchtower: bool,
    holder: u64,
    time: u64,
    taken: &mut [u8],
    refused: &mut [u8],
) -> u32
    ensures { TakesFor held.old result held.new picked.now spent.now watchtower holder time taken.old refused.old taken.new refused.new }
{
    let now = Millis(time);
    let taker = taker_for(watchtower, holder);
    let a = held_bytes::calls::take(held, picked, spent, taker, now, taken, refused);
    u32::from(error::number(a))
}

// ---- excluded cells

// Enters the inputs of a transaction under its hash.
#[unsafe(no_mangle)]
pub extern "C" fn basinpantry_exclusions_add(map: &mut [u8], hash: &[u8], tx: &[u8]) -> u32
    ensures { Adds map.old result map.new hash.now tx.now }
{
    let a = exclusions::add(map, hash, tx);
    u32::from(error::number(a))
}

// The transaction of this hash was committed in this block.
#[unsafe(no_mangle)]
pub extern "C" fn basinpantry_exclusions_commit(map: &mut [u8], hash: &[u8], block: u64) -> u32
    ensures { Commits map.old result map.new hash.now (record { 0 = block }) }
{
    let number = BlockNumber(block);
    let a = exclusion_marks::commit(map, hash, number);
    u32::from(error::number(a))
}

// Removes the transaction of this hash.
#[unsafe(no_mangle)]
pub extern "C" fn basinpantry_exclusions_remove(map: &mut [u8], hash: &[u8]) -> u32
    ensures { Removes map.old result map.new hash.now }
{
    let a = exclusions::remove(map, hash);
    u32::from(error::number(a))
}

// Moves an entry to the transaction that replaces it.
#[unsafe(no_mangle)]
pub extern "C" fn basinpantry_exclusions_migrate_funding_tx(
    map: &mut [u8],
    old_hash: &[u8],
    new_hash: &[u8],
    tx: &[u8],
) -> u32
    ensures { Migrates map.old result map.new old_hash.now new_hash.now tx.now }
{
    let a = exclusions::migrate_funding_tx(map, old_hash, new_hash, tx);
    u32::from(error::number(a))
}

// Drops what was committed 13 blocks before the tip, or earlier.
#[unsafe(no_mangle)]
pub extern "C" fn basinpantry_exclusions_truncate(map: &mut [u8], tip: u64) -> u32
    ensures { Truncates map.old result map.new (record { 0 = tip }) }
{
    let number = BlockNumber(tip);
    let a = exclusions::truncate(map, number);
    u32::from(error::number(a))
}

// Writes the out points of all entries, in their order, as a list.
#[unsafe(no_mangle)]
pub extern "C" fn basinpantry_exclusions_apply(map: &[u8], out: &mut [u8]) -> u32
    ensures { Applies map.now result out.old out.new }
{
    let a = exclusion_marks::apply(map, out);
    u32::from(error::number(a))
}
