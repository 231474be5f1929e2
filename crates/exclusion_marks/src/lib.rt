// The calls on a lent exclusion map that leave every entry at its place: `commit`, which gives one its block, and `apply`, which lists the cells of all. Bytes
// that are no map are refused; a refusal leaves the map's bytes and the buffer as they were.
#![tactic(auto, using(crate::proofs::Ways::ways))]

ghost use Rattle.std.specs.Prelude.{◌≡◌, true, map, ◌+◌, ◌*◌, ◌≤◌, length, drop};
ghost use Rattle.arithmetic.specs.LittleEndian.{AllBytes};
ghost use Rattle.error.specs.Refusal.{answered};
ghost use Rattle.molecule.specs.Write.{splice, put_at};
ghost use Rattle.out_points.specs.OutPoints.{points_bytes};
ghost use Rattle.exclusion_entries.specs.Exclusions.{committed_at, excluded};
ghost use Rattle.exclusion_entries.specs.Entries.{map_bytes, entry_size, excluded_at, is_map};
ghost use Rattle.exclusion_entries.specs.Calls.{Commits, Applies};
ghost use Rattle.exclusion_marks.specs.Inner.{commit_one_bytes};

use error::{Answer, Refusal};
use exclusion_entries::Rule;
use molecule::write;
use out_points::Byte32;
use transaction_writer::are_bytes;
use units::BlockNumber;

// Gives the entry at `at` its block if it is of the hash, and answers the place after it.
fn commit_one(s: &mut [u8], at: usize, hash: Byte32, block: BlockNumber) -> usize
    requires { at + entry_size (drop at s.old) ≤ length s.old }
    ensures value { result ≡ at + entry_size (drop at s.old) }
    ensures s_after { s.new ≡ commit_one_bytes hash block at s.old }
{
    let x = molecule::part(s, at, s.len());
    let found = exclusion_entries::has_hash(x, hash);
    let n = exclusion_entries::point_count(x);
    let next = at + exclusion_entries::entry_size(n);
    if !found {
        return next;
    }
    let to = write::put_u32(s, at + 32, 1);
    write::put_u64(s, to, block.0);
    next
}

// Gives each entry of the hash its block.
fn mark(s: &mut [u8], hash: Byte32, block: BlockNumber)
    requires all_bytes { AllBytes s.old }
    requires s_value { is_map s.old ≡ true }
    ensures s_after { s.new ≡ put_at s.old 0 (map_bytes (map (committed_at hash block) (excluded_at s.old))) }
    ensures s_after_2 { excluded_at s.new ≡ map (committed_at hash block) (excluded_at s.old) }
{
    let n = molecule::word(s, 0) as usize;
    let mut at: usize = 4;
    for _ in 0..n {
        at = commit_one(s, at, hash, block);
    }
}

// The transaction with this hash is committed in this block.
pub fn commit(map: &mut [u8], hash: &[u8], block: BlockNumber) -> Answer
    ensures { Commits map.old (answered result) map.new hash.now block }
{
    let h = exclusion_entries::hash_of(hash)?;
    exclusion_entries::read_map(map, Rule::All)?;
    are_bytes(map);
    mark(map, h, block);
    Ok(())
}

// Puts the out points of all entries from 4 on. An iterator over the entries would be no plainer: it would count the same place, for this one loop alone, as
// `mark` writes to the bytes that it walks.
fn put_excluded(s: &[u8], out: &mut [u8])
    requires all_bytes { AllBytes s.now }
    requires s_value { is_map s.now ≡ true }
    requires s_in_bounds { 4 + 36 * length (excluded (excluded_at s.now)) ≤ length out.old }
    ensures { out.new ≡ splice out.old 4 (points_bytes (excluded (excluded_at s.now))) }
{
    let n = molecule::word(s, 0) as usize;
    let mut to: usize = 4;
    let mut at: usize = 4;
    for _ in 0..n {
        let x = molecule::part(s, at, s.len());
        let c = exclusion_entries::point_count(x);
        let size = exclusion_entries::entry_size(c);
        let run = molecule::part(x, 48, size);
        to = write::put(out, to, run);
        at += size;
    }
}

// Writes the out points of all transactions, in their order, as a list.
pub fn apply(map: &[u8], out: &mut [u8]) -> Answer
    ensures { Applies map.now (answered result) out.old out.new }
{
    let v = exclusion_entries::read_map(map, Rule::All)?;
    let n = v.points as u32;
    if !out_points::fits(n, out.len()) {
        return Err(Refusal::BufferTooShort);
    }
    are_bytes(map);
    put_excluded(map, out);
    write::put_u32(out, 0, n);
    Ok(())
}
