// The exclusion map as lent bytes: a count of four bytes, then the entries one after the other, each 48 bytes and 36 for each out point: the hash (32), the
// kind (4: 0 pending, 1 committed), the block (8; 0 while pending), the list of the out points. Here it is read: one entry, and all in one pass.
#![tactic(auto, using(crate::proofs::Ways::ways))]

ghost use Rattle.std.specs.Prelude.{◌≡◌, ◌+◌, ◌*◌};
ghost use Rattle.arithmetic.specs.LittleEndian.{u32_at};
ghost use Rattle.exclusion_entries.specs.Exclusions.{has_hash, is_recent};
ghost use Rattle.exclusion_entries.specs.Entries.{map_entry_of, is_entry};
ghost use Rattle.exclusion_entries.specs.Inner.{Small, keeps, takes, stayed, turned, first_survey, words_of, may_touch, survey_of, hash_of};

use arithmetic::little_endian;
use error::Refusal;
use out_points::Byte32;
use units::BlockNumber;

// How many entries a map has at most, and how many out points they have together.
pub const MOST_ENTRIES: usize = 64;

pub const MOST_OUT_POINTS: usize = 512;

// How many bytes a lent map has: room for its count, its entries and their out points.
pub const MAP_BYTES: usize = 4 + 48 * MOST_ENTRIES + 36 * MOST_OUT_POINTS;

// Number of blocks to keep the committed funding tx in the exclusion map.
const KEEP_BLOCK_PERIOD: u64 = 13;

// What a call does to the entries.
#[derive(Clone, Copy, Debug, PartialEq, Eq, Hash)]
pub enum Rule {
    // All stay.
    All,
    // The first of this hash gives its place to a new one.
    Enter(Byte32),
    // Those of this hash go.
    Remove(Byte32),
    // Those of the first hash go, and then the first of the second gives its place to a new one.
    Migrate(Byte32, Byte32),
    // Those go that were committed KEEP_BLOCK_PERIOD blocks before this one, or earlier.
    Truncate(BlockNumber),
}

// The first words of the hashes that a rule goes by: it does not touch an entry whose hash begins with neither.
#[derive(Clone, Copy, Debug, PartialEq, Eq, Hash)]
struct Words {
    old: u64,
    new: u64,
}

// What a pass over a table finds.
#[derive(Clone, Copy, Debug, PartialEq, Eq, Hash)]
pub struct Survey {
    // Whether an entry goes, and whether one gives its place.
    pub lost: bool,
    pub taken: bool,
    // How many entries stay, with how many out points.
    pub stays: usize,
    pub points: usize,
    // Where a new entry goes once those that stay stand one after the other.
    pub place: usize,
    // From which place and entry on bytes have to move for that.
    pub from: usize,
    pub index: usize,
}

// ---- an entry at the start of x

// How many out points it has.
pub fn point_count(x: &[u8]) -> u32
    ensures { result ≡ u32_at x.now 44 }
{
    little_endian::u32_at(x, 44)
}

// How many bytes an entry with n out points has.
pub fn entry_size(n: u32) -> usize
    ensures { result ≡ 48 + 36 * n }
{
    48 + 36 * n as usize
}

// Whether its kind and its block are in form. No `Option<BlockNumber>` is made of the two, which is read in one place alone (`is_recent`): the Option of
// `state_of` is not the one of the code, and it would need a definition beside that one. Here both numbers are asked for, as bytes may be out of form.
#[tactic(auto, unfolding(crate::specs::Entries::is_entry))]
fn is_entry(x: &[u8]) -> bool
    ensures { result ≡ is_entry x.now }
{
    let kind = little_endian::u32_at(x, 32);
    let block = little_endian::u64_at(x, 36);
    (kind == 0 && block == 0) || kind == 1
}

// Whether it is the transaction `hash`. What follows the first word is read only where that is the same.
#[tactic(auto, unfolding(crate::specs::Exclusions::has_hash, crate::specs::Entries::map_entry_of, out_points::specs::OutPoints::eq_hash, out_points::specs::OutPoints::byte32_at))]
pub fn has_hash(x: &[u8], hash: Byte32) -> bool
    ensures { result ≡ has_hash hash (map_entry_of x.now) }
{
    little_endian::u64_at(x, 0) == hash.a && out_points::byte32_at(x, 0) == hash
}

// Whether it is pending, or was committed after what `truncate` drops at this tip.
#[tactic(auto, unfolding(crate::specs::Exclusions::is_recent, crate::specs::Entries::map_entry_of, crate::specs::Entries::state_of))]
fn is_recent(x: &[u8], tip: BlockNumber) -> bool
    ensures { result ≡ is_recent tip (map_entry_of x.now).committed }
{
    let kind = little_endian::u32_at(x, 32);
    let block = BlockNumber(little_endian::u64_at(x, 36));
    kind == 0 || !tip.at_least(block, KEEP_BLOCK_PERIOD)
}

// Whether the call keeps it.
#[tactic(auto, unfolding(crate::specs::Inner::keeps))]
pub fn keeps(rule: Rule, x: &[u8]) -> bool
    ensures { result ≡ keeps rule (map_entry_of x.now) }
{
    match rule {
        Rule::All | Rule::Enter(_) => true,
        Rule::Remove(h) | Rule::Migrate(h, _) => !has_hash(x, h),
        Rule::Truncate(tip) => is_recent(x, tip),
    }
}

// Whether a new entry may take its place.
#[tactic(auto, unfolding(crate::specs::Inner::takes))]
pub fn takes(rule: Rule, x: &[u8]) -> bool
    ensures { result ≡ takes rule (map_entry_of x.now) }
{
    match rule {
        Rule::Enter(h) | Rule::Migrate(_, h) => has_hash(x, h),
        Rule::All | Rule::Remove(_) | Rule::Truncate(_) => false,
    }
}

// ---- a hash that is lent

// The hash that the bytes are. No TryFrom: the refusal is the one that the calls on the map give, and not one of the type.
#[tactic(auto, unfolding(crate::specs::Inner::hash_of))]
pub fn hash_of(s: &[u8]) -> Result<Byte32, Refusal>
    ensures { result ≡ hash_of s.now }
{
    if s.len() != 32 {
        return Err(Refusal::LentBytesUnreadable);
    }
    Ok(out_points::byte32_at(s, 0))
}

// ---- the pass

// Before the first entry.
#[tactic(auto, unfolding(crate::specs::Inner::first_survey))]
fn start() -> Survey
    ensures { result ≡ first_survey }
{
    Survey {
        lost: false,
        taken: false,
        stays: 0,
        points: 0,
        place: 4,
        from: 4,
        index: 0,
    }
}

// After an entry that stays, with n out points.
#[tactic(auto, unfolding(crate::specs::Inner::stayed))]
fn stayed(v: Survey, n: u32) -> Survey
    requires { Small n v }
    ensures { result ≡ stayed n v }
{
    let size = entry_size(n);
    let mut r = v;
    r.stays += 1;
    r.points += n as usize;
    if v.taken {
        return r;
    }
    r.place += size;
    if v.lost {
        return r;
    }
    r.from += size;
    r.index += 1;
    r
}

// The first words of the hashes that the rule goes by, if it goes by hashes.
#[tactic(auto, unfolding(crate::specs::Inner::words_of))]
fn words_of(rule: Rule) -> Option<Words>
    ensures { result ≡ words_of rule }
{
    match rule {
        // Nothing is touched, and an entry that begins with 0 stays all the same.
        Rule::All => Some(Words { old: 0, new: 0 }),
        Rule::Enter(h) | Rule::Remove(h) => Some(Words { old: h.a, new: h.a }),
        Rule::Migrate(o, h) => Some(Words { old: o.a, new: h.a }),
        Rule::Truncate(_) => None,
    }
}

// Whether the rule may touch the entry at the start of x.
#[tactic(auto, unfolding(crate::specs::Inner::may_touch))]
fn may_touch(words: Option<Words>, x: &[u8]) -> bool
    ensures { result ≡ may_touch words x.now }
{
    match words {
        Some(w) => {
            let a = little_endian::u64_at(x, 0);
            a == w.old || a == w.new
        }
        None => true,
    }
}

// After the entry at the start of x, that the rule may touch.
#[tactic(auto, unfolding(crate::specs::Inner::turned, crate::specs::Inner::lost_one, crate::specs::Inner::took_one))]
fn touched(v: Survey, rule: Rule, x: &[u8]) -> Survey
    requires { Small (u32_at x.now 44) v }
    ensures { result ≡ turned (keeps rule (map_entry_of x.now)) (takes rule (map_entry_of x.now)) (u32_at x.now 44) v }
{
    if !keeps(rule, x) {
        return Survey { lost: true, ..v };
    }
    if !v.taken && takes(rule, x) {
        return Survey { taken: true, ..v };
    }
    stayed(v, point_count(x))
}

// Reads a table, and finds what a call by this rule makes of it. An iterator over the entries would be no plainer: it needs the place and what is left too,
// as each entry tells where the next one starts, and the next is there only while the out points are not too many.
pub fn read_map(s: &[u8], rule: Rule) -> Result<Survey, Refusal>
    ensures { result ≡ survey_of rule s.now }
{
    if s.len() != MAP_BYTES {
        return Err(Refusal::LentBytesUnreadable);
    }
    let n = molecule::word(s, 0) as usize;
    if MOST_ENTRIES < n {
        return Err(Refusal::LentBytesUnreadable);
    }
    let w = words_of(rule);
    let mut v = start();
    let mut at: usize = 4;
    let mut left = MOST_OUT_POINTS as u32;
    for _ in 0..n {
        let x = &s[at..];
        let c = point_count(x);
        if left < c {
            return Err(Refusal::LentBytesUnreadable);
        }
        if !is_entry(x) {
            return Err(Refusal::LentBytesUnreadable);
        }
        let touch = may_touch(w, x);
        left -= c;
        at += entry_size(c);
        // What the rule does not touch is passed over with no look at the rule.
        if touch {
            v = touched(v, rule, x);
        } else {
            v = stayed(v, c);
        }
    }
    Ok(v)
}
