// Readers of Molecule (RFC 0008) over a lent slice of bytes. Each is total: past the end a number is 0 and a part is empty. A part that is handed
// back is a stretch of the lent bytes: `ensures` says which bytes, and where in the lent slice they stand. The number n beside a slice is that of the items
// that a schema or a header says it has, and no length of the slice. An item of a fixvec is told by its size k, which the schema says and the bytes do not,
// and by its place i: a struct of the two would be made for each call.
#![tactic(auto, using(crate::proofs::Ways::ways), unfolding(crate::specs::Layout::word, crate::specs::Layout::start, crate::specs::Layout::has_header, crate::specs::Layout::field_of, crate::specs::Layout::field_start, crate::specs::Layout::item_count, crate::specs::Layout::item_of, crate::specs::Layout::item_start, crate::specs::Layout::fix_count, crate::specs::Layout::fix_item, crate::specs::Layout::fix_start, crate::specs::Layout::content, crate::specs::Layout::content_start, crate::specs::Layout::entry_of, crate::specs::Layout::entry_start))]

pub mod write;

ghost use Rattle.std.specs.Prelude.{◌≡◌, ◌+◌, min, Bool, cond, length, Some, None};
ghost use Rattle.molecule.specs.Molecule.{Ty, readable, fixvec, dynvec, array, byte, table, option, end, ◌&◌};
ghost use Rattle.molecule.specs.Layout.{part, part_start, inside, word, start, has_header, has_items, field_of, field_start, item_count, item_of, item_start};
ghost use Rattle.molecule.specs.Layout.{fix_count, fix_item, fix_start, content, content_start, entry_of, entry_start};

use arithmetic::{bits, little_endian};

// The bytes from `from` up to `to`, as many of them as there are.
pub fn part(s: &[u8], from: usize, to: usize) -> &[u8]
    ensures result_value { result.now ≡ part s.now from to }
    ensures ref_ptr_value { result.ref_ptr ≡ inside s.entry.ref_ptr (part_start s.now from to) }
{
    let e = to.min(s.len());
    let b = from.min(e);
    &s[b..e]
}

// The i-th number of four bytes.
pub fn word(s: &[u8], i: usize) -> u32
    ensures { result ≡ word s.now i }
{
    little_endian::u32_of(s, i)
}

// Where item i of n starts, and the end for i = n.
pub fn start(s: &[u8], n: usize, i: usize) -> usize
    ensures { result ≡ start s.now n i }
{
    if i < n {
        word(s, i + 1) as usize
    } else {
        s.len()
    }
}

// Whether s has a header of n items: its size, and n starts, of which the first follows the header.
pub fn has_header(s: &[u8], n: usize) -> bool
    ensures { result ≡ has_header s.now n }
{
    n < s.len() / 4 && word(s, 0) as usize == s.len() && start(s, n, 0) == 4 + 4 * n
}

// Whether s is a header and n items without gaps: a table of n fields, or a dynvec of n items. (`is_dynvec_of` goes over items and tests each as it comes: one
// walk for both would test twice.)
pub fn has_items(s: &[u8], n: usize) -> bool
    ensures { result ≡ has_items s.now n }
{
    if !has_header(s, n) {
        return false;
    }
    let mut from = start(s, n, 0);
    for i in 0..n {
        let to = start(s, n, i + 1);
        if to < from {
            return false;
        }
        from = to;
    }
    true
}

// Item i of n.
pub fn field(s: &[u8], n: usize, i: usize) -> &[u8]
    ensures result_value { result.now ≡ field_of s.now n i }
    ensures ref_ptr_value { result.ref_ptr ≡ inside s.entry.ref_ptr (field_start s.now n i) }
{
    if n <= i {
        return part(s, s.len(), s.len());
    }
    // the later word first: where it is there, so is the one before it
    let b = start(s, n, i + 1);
    let a = start(s, n, i);
    part(s, a, b)
}

// How many bytes item i of n has.
pub fn field_len(s: &[u8], n: usize, i: usize) -> usize
    ensures { result ≡ length (field_of s.now n i) }
{
    field(s, n, i).len()
}

// How many items a dynvec says that it has, but no more than it has numbers: who counts by it takes time by the bytes.
pub fn item_count(s: &[u8]) -> u32
    ensures { result ≡ item_count s.now }
{
    let said = bits::quarter(word(s, 1)).saturating_sub(1) as usize;
    said.min(s.len() / 4) as u32
}

// How many items a dynvec has, if its header is right: its size, and as many starts as it says, of which the first follows the header. The count is a
// quarter of that offset, less one, so that what is left to ask of it is the remainder.
pub fn list_header(s: &[u8]) -> Option<u32>
    ensures { result ≡ cond (has_header s.now (item_count s.now)) (Some (item_count s.now)) None }
{
    let count = item_count(s);
    if s.len() / 4 <= count as usize || word(s, 0) as usize != s.len() {
        return None;
    }
    // with no items the size is all of the header
    let right = if count == 0 {
        s.len() == 4
    } else {
        bits::is_multiple_of_four(word(s, 1))
    };
    if right { Some(count) } else { None }
}

// Item i of a dynvec.
pub fn item(s: &[u8], i: usize) -> &[u8]
    ensures result_value { result.now ≡ item_of s.now i }
    ensures ref_ptr_value { result.ref_ptr ≡ inside s.entry.ref_ptr (item_start s.now i) }
{
    field(s, item_count(s) as usize, i)
}

// Whether s is a fixvec of items of k bytes.
pub fn is_fixvec(s: &[u8], k: u32) -> bool
    ensures { result ≡ readable (fixvec (array byte k)) s.now }
{
    s.len() <= 0xffff_ffff && s.len() >= 4 && s.len() == 4 + k as usize * word(s, 0) as usize
}

// How many items a fixvec says that it has, but no more than it has bytes.
pub fn fix_count(s: &[u8]) -> u32
    ensures { result ≡ fix_count s.now }
{
    let said = word(s, 0) as usize;
    said.min(s.len()) as u32
}

// Item i of a fixvec of items of k bytes.
pub fn fix_item(s: &[u8], k: u32, i: usize) -> &[u8]
    ensures result_value { result.now ≡ fix_item s.now k i }
    ensures ref_ptr_value { result.ref_ptr ≡ inside s.entry.ref_ptr (fix_start s.now k i) }
{
    let n = word(s, 0) as usize;
    if n <= i {
        return part(s, 0, 0);
    }
    let w = k as usize;
    let a = 4 + w * i;
    let b = a + w;
    part(s, a, b)
}

// Whether s is a fixvec of bytes.
pub fn is_bytes(s: &[u8]) -> bool
    ensures { result ≡ readable (fixvec byte) s.now }
{
    is_fixvec(s, 1)
}

// The bytes of a fixvec of bytes.
pub fn content(s: &[u8]) -> &[u8]
    ensures result_value { result.now ≡ content s.now }
    ensures ref_ptr_value { result.ref_ptr ≡ inside s.entry.ref_ptr (content_start s.now) }
{
    part(s, 4, s.len())
}

// A type of Molecule, with the test that tells whether bytes are of it.
pub trait Entity {
    ghost ty: { Ty };

    fn is(s: &[u8]) -> bool
        ensures { result ≡ readable ty s.now };
}

// Whether s is a dynvec of items of a type. Each item starts where the one before it ends: one walk tests their order and each of them.
pub fn is_dynvec_of<T: Entity>(s: &[u8]) -> bool
    ensures { result ≡ readable (dynvec T.ty) s.now }
{
    let Some(count) = list_header(s) else {
        return false;
    };
    let n = count as usize;
    let mut from = 4 + 4 * n;
    for i in 0..n {
        let to = start(s, n, i + 1);
        // An item of no bytes is tested by itself, without its place: a list of cells that are not live has no other items. Of the others the order alone says
        // that none starts past the end: tested here too, it spares a part its clamps.
        if to == from {
            if !T::is(part(s, 0, 0)) {
                return false;
            }
        } else if to < from || to > s.len() || !T::is(part(s, from, to)) {
            return false;
        }
        from = to;
    }
    true
}

// A fixvec of bytes.
pub struct Bytes;

impl Entity for Bytes {
    ghost ty = { fixvec byte };

    fn is(s: &[u8]) -> bool {
        is_bytes(s)
    }
}

// A dynvec of these.
pub struct BytesVec;

impl Entity for BytesVec {
    ghost ty = { dynvec (fixvec byte) };

    fn is(s: &[u8]) -> bool {
        is_bytes_vec(s)
    }
}

// An item or no bytes.
#[tactic(auto, using(crate::proofs::HeaderLaws::option_is))]
impl<T: Entity> Entity for Option<T> {
    ghost ty = { option T.ty };

    // Within the walk: a list of records that are not live is many items of no bytes.
    #[inline(always)]
    fn is(s: &[u8]) -> bool {
        s.is_empty() || T::is(s)
    }
}

// Whether s is a dynvec of fixvecs of bytes. Compiled into its callers the walk takes about half as long again.
#[inline(never)]
pub fn is_bytes_vec(s: &[u8]) -> bool
    ensures { result ≡ readable (dynvec (fixvec byte)) s.now }
{
    is_dynvec_of::<Bytes>(s)
}

// Whether s is a table of two fields of these types.
#[tactic(auto, using(crate::proofs::HeaderLaws::pair_is))]
pub fn is_pair_of<A: Entity, B: Entity>(s: &[u8]) -> bool
    ensures { result ≡ readable (table (A.ty & B.ty & end)) s.now }
{
    has_items(s, 2) && A::is(field(s, 2, 0)) && B::is(field(s, 2, 1))
}

// The bytes of item i of a dynvec of fixvecs of bytes.
pub fn entry(s: &[u8], i: usize) -> &[u8]
    ensures result_value { result.now ≡ entry_of s.now i }
    ensures ref_ptr_value { result.ref_ptr ≡ inside s.entry.ref_ptr (entry_start s.now i) }
{
    content(item(s, i))
}
