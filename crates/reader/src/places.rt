// What stands at a place of lent bytes (RFC 0008): the fields of a table, the items of a list. Each function is total: past the end a number is 0 and a part
// is empty. A part that is handed back is a stretch of the lent bytes: the contract says which bytes, and where in the lent slice they start. They take a slice
// and a place, and `Reader` has the two in one: docs/RULES.md, "The form each place takes", asks for functions of both beneath its methods.
ghost use Rattle.std.specs.Prelude.{◌≡◌, ◌+◌, min};
ghost use Rattle.arithmetic.specs.LittleEndian.{u32_at};
ghost use Rattle.molecule.specs.Layout.{part, part_start, inside, item_count, item_of, item_start, fix_item, fix_start, entry_of, entry_start};
ghost use Rattle.reader.specs.Places.{table_at, table_start, fixvec_at, fixvec_start, field_at};

use arithmetic::little_endian;

// The next k bytes, as many of them as there are.
fn stretch(s: &[u8], at: usize, k: usize) -> &[u8]
    ensures result_value { result.now ≡ part s.now at (at + k) }
    ensures ref_ptr_value { result.ref_ptr ≡ inside s.entry.ref_ptr (part_start s.now at (at + k)) }
{
    molecule::part(s, at, at.saturating_add(k))
}

// The number of four bytes: it reads them where they stand, and is no conversion.
pub fn number(s: &[u8], at: usize) -> u32
    ensures { result ≡ u32_at s.now at }
{
    little_endian::u32_at(s, at)
}

// The table or dynvec: its first number says how many bytes it has.
pub fn bytes(s: &[u8], at: usize) -> &[u8]
    ensures { (result.now ≡ table_at s.now at) × (result.ref_ptr ≡ inside s.entry.ref_ptr (table_start s.now at)) }
{
    stretch(s, at, number(s, at) as usize)
}

// Where field i of the table starts.
pub fn field(s: &[u8], at: usize, i: u32) -> usize
    ensures { result ≡ field_at s.now at i }
{
    let offset = molecule::word(bytes(s, at), i as usize + 1) as usize;
    at.saturating_add(offset).min(s.len())
}

// How many items the dynvec says that it has.
pub fn item_count(s: &[u8], at: usize) -> u32
    ensures { result ≡ item_count (table_at s.now at) }
{
    molecule::item_count(bytes(s, at))
}

// Item i of the dynvec.
pub fn item(s: &[u8], at: usize, i: usize) -> &[u8]
    ensures { (result.now ≡ item_of (table_at s.now at) i)
        × (result.ref_ptr ≡ inside s.entry.ref_ptr (table_start s.now at + item_start (table_at s.now at) i)) }
{
    molecule::item(bytes(s, at), i)
}

// The bytes of item i of the dynvec of fixvecs of bytes.
pub fn entry(s: &[u8], at: usize, i: usize) -> &[u8]
    ensures { (result.now ≡ entry_of (table_at s.now at) i)
        × (result.ref_ptr ≡ inside s.entry.ref_ptr (table_start s.now at + entry_start (table_at s.now at) i)) }
{
    molecule::entry(bytes(s, at), i)
}

// The fixvec of items of k bytes: its first number says how many items it has.
fn fixvec(s: &[u8], at: usize, k: u32) -> &[u8]
    ensures result_value { result.now ≡ fixvec_at s.now at k }
    ensures ref_ptr_value { result.ref_ptr ≡ inside s.entry.ref_ptr (fixvec_start s.now at k) }
{
    let n = number(s, at) as usize;
    stretch(s, at, 4 + k as usize * n)
}

// Item i of the fixvec of items of k bytes.
pub fn fix_item(s: &[u8], at: usize, k: u32, i: usize) -> &[u8]
    ensures { (result.now ≡ fix_item (fixvec_at s.now at k) k i)
        × (result.ref_ptr ≡ inside s.entry.ref_ptr (fixvec_start s.now at k + fix_start (fixvec_at s.now at k) k i)) }
{
    molecule::fix_item(fixvec(s, at, k), k, i)
}
