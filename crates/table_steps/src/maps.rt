// Each call on a lent exclusion map, with its own contract and as a step of a list of calls.
ghost use Rattle.error.specs.Refusal.{answered};
ghost use Rattle.exclusion_entries.specs.Calls.{Adds, Commits, Removes, Truncates, Migrates};
ghost use Rattle.table_laws.specs.Exclusions.{Called};

use error::Answer;
use units::BlockNumber;

pub fn add(map: &mut [u8], hash: &[u8], tx: &[u8]) -> Answer
    ensures map_after { Adds map.old (answered result) map.new hash.now tx.now }
    ensures called { Called map.old map.new }
{
    exclusions::add(map, hash, tx)
}

pub fn commit(map: &mut [u8], hash: &[u8], block: BlockNumber) -> Answer
    ensures map_after { Commits map.old (answered result) map.new hash.now block }
    ensures called { Called map.old map.new }
{
    exclusion_marks::commit(map, hash, block)
}

pub fn remove(map: &mut [u8], hash: &[u8]) -> Answer
    ensures map_after { Removes map.old (answered result) map.new hash.now }
    ensures called { Called map.old map.new }
{
    exclusions::remove(map, hash)
}

pub fn truncate(map: &mut [u8], tip: BlockNumber) -> Answer
    ensures map_after { Truncates map.old (answered result) map.new tip }
    ensures called { Called map.old map.new }
{
    exclusions::truncate(map, tip)
}

pub fn migrate_funding_tx(map: &mut [u8], old: &[u8], new: &[u8], tx: &[u8]) -> Answer
    ensures map_after { Migrates map.old (answered result) map.new old.now new.now tx.now }
    ensures called { Called map.old map.new }
{
    exclusions::migrate_funding_tx(map, old, new, tx)
}
