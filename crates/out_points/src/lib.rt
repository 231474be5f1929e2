// Out points: an output of a transaction, by the transaction's hash and the output's index. Lists of them are lent and written as Molecule
// writes them: the count, then 36 bytes for each.
#![tactic(auto, using(crate::proofs::Ways::ways), unfolding(crate::specs::OutPoints::eq_hash, crate::specs::OutPoints::eq_point, crate::specs::OutPoints::slot_of, crate::specs::OutPoints::byte32_at, crate::specs::OutPoints::out_point_at))]

ghost use Rattle.std.specs.Prelude.{◌≡◌, ◌+◌, ◌*◌, ◌<◌, ◌≤◌, min, ◌++◌, length, nat_le};
ghost use Rattle.arithmetic.specs.LittleEndian.{to_le};
ghost use Rattle.molecule.specs.Layout.{span, fix_count};
ghost use Rattle.molecule.specs.Write.{put_at, put_end, Put};
ghost use Rattle.out_points.specs.OutPoints.{eq_point, slot_of, byte32_at, out_point_at, point_of, points, has, hash_bytes, point_bytes};

use arithmetic::little_endian;
use molecule::write;

// How many bytes an out point has.
pub const OUT_POINT_BYTES: u32 = 36;

// A hash, in words of eight bytes, so that two are compared in four steps.
#[derive(Clone, Copy, Debug, Default, PartialEq, Eq, Hash)]
pub struct Byte32 {
    pub a: u64,
    pub b: u64,
    pub c: u64,
    pub d: u64,
}

#[derive(Clone, Copy, Debug, Default, PartialEq, Eq, Hash)]
pub struct OutPoint {
    pub hash: Byte32,
    pub index: u32,
}

// Whether the two name the same output. Where it is asked for each record or item: by the words of the two, of which mostly the first tells them apart, it takes
// less than `==`, which goes by two structs in memory.
#[inline(always)]
pub fn same_point(p: OutPoint, q: OutPoint) -> bool
    ensures { result ≡ eq_point p q }
{
    let x = p.hash;
    let y = q.hash;
    x.a == y.a && x.b == y.b && x.c == y.c && x.d == y.d && p.index == q.index
}

// How many slots there are for marks and hints by which a search is spared.
pub const SLOTS: usize = 4093;

// The slot of an out point. Every word of it counts, so that out points do not share one because they begin alike.
pub fn slot(p: OutPoint) -> usize
    ensures value { result ≡ slot_of p }
    ensures upper_bound { result < 4093 }
{
    let hash = p.hash;
    let sum = hash
        .a
        .wrapping_add(hash.b)
        .wrapping_add(hash.c)
        .wrapping_add(hash.d)
        .wrapping_add(u64::from(p.index));
    sum as usize % SLOTS
}

// The hash at `at`; a word that is not there whole is 0.
pub fn byte32_at(s: &[u8], at: usize) -> Byte32
    ensures { result ≡ byte32_at s.now at }
{
    if s.len() <= at {
        return Byte32::default();
    }
    let a = little_endian::u64_at(s, at);
    let b = little_endian::u64_at(s, at + 8);
    let c = little_endian::u64_at(s, at + 16);
    let d = little_endian::u64_at(s, at + 24);
    Byte32 { a, b, c, d }
}

// The out point at `at`; a number that is not there whole is 0.
pub fn out_point_at(s: &[u8], at: usize) -> OutPoint
    ensures { result ≡ out_point_at s.now at }
{
    let hash = byte32_at(s, at);
    if s.len() <= at {
        return OutPoint { hash, index: 0 };
    }
    let index = little_endian::u32_at(s, at + 32);
    OutPoint { hash, index }
}

// The most bytes that a call writes, as of a transaction.
const MAX_BYTES: usize = 133_116;

// How many bytes a list of n out points has.
fn list_size(n: u32) -> usize
    ensures { result ≡ 4 + 36 * n }
{
    4 + 36 * n as usize
}

// Whether a list of n out points may be written to a buffer of so many bytes.
pub fn fits(n: u32, room: usize) -> bool
    ensures { result ≡ nat_le (4 + 36 * n) (min room 133116) }
{
    list_size(n) <= room.min(MAX_BYTES)
}

// Item i of a lent list.
pub fn point_of(s: &[u8], i: usize) -> OutPoint
    ensures { result ≡ point_of s.now i }
{
    let x = molecule::fix_item(s, OUT_POINT_BYTES, i);
    out_point_at(x, 0)
}

// Whether item i of a lent list, which has it whole, is p. A word is read only where those before it are the same.
fn same_within(s: &[u8], i: usize, p: OutPoint) -> bool
    requires { (i < fix_count s.now) × (40 + 36 * i ≤ length s.now) }
    ensures { result ≡ eq_point p (point_of s.now i) }
{
    let x = &s[4 + 36 * i..40 + 36 * i];
    p.hash.a == little_endian::u64_at(x, 0) && same_point(p, out_point_at(x, 0))
}

// Whether p is among the first n items. The list and n, since bytes that are missing at its end are read as zeros: such items have no slice of their own.
fn has_among(s: &[u8], n: usize, p: OutPoint) -> bool
    requires { (n ≤ fix_count s.now) × (n < 4294967296) }
    ensures { result ≡ has p (span (point_of s.now) 0 n) }
{
    if 4 + 36 * n <= s.len() {
        for i in 0..n {
            if same_within(s, i, p) {
                return true;
            }
        }
        return false;
    }
    for j in 0..n {
        if p == point_of(s, j) {
            return true;
        }
    }
    false
}

// Whether p is among the first n items of the lent list, or among all where it has fewer: the list and n, as above.
pub fn has_before(s: &[u8], n: usize, p: OutPoint) -> bool
    ensures { result ≡ has p (span (point_of s.now) 0 (min n (fix_count s.now))) }
{
    let count = molecule::fix_count(s) as usize;
    has_among(s, n.min(count), p)
}

// Whether the lent list has p.
pub fn has_point(s: &[u8], p: OutPoint) -> bool
    ensures { result ≡ has p (points s.now) }
{
    let n = molecule::fix_count(s) as usize;
    has_among(s, n, p)
}

// Puts two words of a hash. Buffer and place stand side by side, as in `molecule::write`, which says why.
fn put_words(out: &mut [u8], at: usize, x: u64, y: u64) -> usize
    requires { at + 16 ≤ length out.old }
    ensures put { Put out.old at (to_le 8 x ++ to_le 8 y) out.new result }
    ensures value { result ≡ at + 16 }
{
    let at = write::put_u64(out, at, x);
    write::put_u64(out, at, y)
}

// Puts the hash at `at`.
pub fn put_byte32(out: &mut [u8], at: usize, h: Byte32) -> usize
    ensures out_after { out.new ≡ put_at out.old at (hash_bytes h) }
    ensures value { result ≡ put_end out.old at (hash_bytes h) }
{
    if out.len().saturating_sub(at) < 32 {
        return at;
    }
    let at = put_words(out, at, h.a, h.b);
    put_words(out, at, h.c, h.d)
}

// Puts the out point at `at`.
pub fn put_out_point(out: &mut [u8], at: usize, p: OutPoint) -> usize
    ensures out_after { out.new ≡ put_at out.old at (point_bytes p) }
    ensures value { result ≡ put_end out.old at (point_bytes p) }
{
    if out.len().saturating_sub(at) < 36 {
        return at;
    }
    let hash = p.hash;
    let at = put_byte32(out, at, hash);
    write::put_u32(out, at, p.index)
}
