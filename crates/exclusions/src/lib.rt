// LiveCellsExclusionMap: the cells that funding transactions spend, kept out of later picks. The map is bytes that the caller keeps and lends to each call,
// which works on them in place. A transaction that can't be read is refused first, then bytes that are no map; a refusal leaves the map's bytes and the buffer
// as they were.
#![tactic(auto, using(crate::proofs::Ways::ways))]

ghost use Rattle.error.specs.Refusal.{answered};
ghost use Rattle.table_bytes.specs.Lent.{Leaves};
ghost use Rattle.exclusion_entries.specs.Exclusions.{fitting};
ghost use Rattle.exclusion_entries.specs.Entries.{excluded_at};
ghost use Rattle.exclusion_entries.specs.Calls.{map_table, Adds, Removes, Truncates, Migrates};
ghost use Rattle.exclusions.specs.Inner.{Found, entries_after};

use changes::Pass;
use entry::NewEntry;
use error::{Answer, Refusal};
use exclusion_entries::{MOST_ENTRIES, MOST_OUT_POINTS, Rule};
use transaction_writer::are_bytes;
use units::BlockNumber;

mod changes;
mod entry;

// Adds an entry to the table that the pass leaves, where there is room.
fn enter(map: &mut [u8], pass: Pass, added: NewEntry<'_>) -> Answer
    requires { Found pass map.old }
    ensures { Leaves map_table map.old (answered result) map.new
        (fitting (entries_after pass.rule added.entry.hash added.entry.inputs.now (excluded_at map.old))) }
{
    are_bytes(map);
    are_bytes(added.inputs);
    let n = added.point_count() as usize;
    if MOST_ENTRIES <= pass.found.stays || MOST_OUT_POINTS < pass.found.points + n {
        return Err(Refusal::TooManyExclusions);
    }
    pass.replace(map, added);
    Ok(())
}

// Enters a transaction, uncommitted, under its hash; empty bytes are none.
pub fn add(map: &mut [u8], hash: &[u8], tx: &[u8]) -> Answer
    ensures { Adds map.old (answered result) map.new hash.now tx.now }
{
    if !transaction::is_optional_transaction(tx) {
        return Err(Refusal::OurTransactionUnreadable);
    }
    let h = exclusion_entries::hash_of(hash)?;
    let rule = Rule::Enter(h);
    let found = exclusion_entries::read_map(map, rule)?;
    are_bytes(map);
    if tx.is_empty() {
        return Ok(());
    }
    enter(map, Pass { rule, found }, NewEntry::of(h, tx))
}

// The table without the transaction of this hash.
pub fn remove(map: &mut [u8], hash: &[u8]) -> Answer
    ensures { Removes map.old (answered result) map.new hash.now }
{
    let h = exclusion_entries::hash_of(hash)?;
    let rule = Rule::Remove(h);
    let found = exclusion_entries::read_map(map, rule)?;
    are_bytes(map);
    Pass { rule, found }.drop_others(map);
    Ok(())
}

// Drops what was committed 13 blocks before the tip, or earlier.
pub fn truncate(map: &mut [u8], tip: BlockNumber) -> Answer
    ensures { Truncates map.old (answered result) map.new tip }
{
    let rule = Rule::Truncate(tip);
    let found = exclusion_entries::read_map(map, rule)?;
    are_bytes(map);
    Pass { rule, found }.drop_others(map);
    Ok(())
}

// Moves an entry to the transaction that replaces it; where that is none, the entry goes.
pub fn migrate_funding_tx(map: &mut [u8], old: &[u8], new: &[u8], tx: &[u8]) -> Answer
    ensures { Migrates map.old (answered result) map.new old.now new.now tx.now }
{
    if !transaction::is_optional_transaction(tx) {
        return Err(Refusal::OurTransactionUnreadable);
    }
    let h = exclusion_entries::hash_of(new)?;
    if tx.is_empty() {
        return remove(map, old);
    }
    let o = exclusion_entries::hash_of(old)?;
    let rule = Rule::Migrate(o, h);
    let found = exclusion_entries::read_map(map, rule)?;
    are_bytes(map);
    if !found.lost {
        return Ok(());
    }
    enter(map, Pass { rule, found }, NewEntry::of(h, tx))
}
