// A flat table of rows of k bytes in lent bytes: four bytes for the count, then the rows. Whoever keeps a table asks `is_table` first, and refuses what
// is none; a call that has nothing to do (a row of another length, no room, no row at that place) leaves all bytes as they were. The bytes do not say how long
// their rows are, so each call takes s and k: a struct of both would hold a `&mut`, and each contract would say in a clause more that it is still the same one.
#![tactic(auto, using(crate::proofs::Ways::ways), unfolding(crate::specs::Rows::has_key, crate::specs::Rows::pushed, crate::specs::Rows::replaced, crate::specs::Rows::removed, crate::specs::Rows::room_for, crate::specs::Rows::with_row, crate::specs::Rows::with_count, crate::specs::Rows::rows_behind))]

ghost use Rattle.std.specs.Prelude.{◌≡◌};
ghost use Rattle.molecule.specs.Layout.{inside};
ghost use Rattle.rows.specs.Rows.{is_table, row_count, row_at, row_start, has_key, find, pushed, replaced, removed};

use molecule::write;

// Whether s is a table with room for n rows of k bytes.
#[tactic(auto, unfolding(crate::specs::Rows::is_table))]
pub fn is_table(s: &[u8], k: u32, n: u32) -> bool
    ensures { result ≡ is_table k n s.now }
{
    s.len() == 4 + k as usize * n as usize && molecule::word(s, 0) <= n
}

// How many rows it has: no more than bytes, whatever it says.
pub fn row_count(s: &[u8]) -> usize
    ensures { result ≡ row_count s.now }
{
    molecule::fix_count(s) as usize
}

// Row i.
pub fn row(s: &[u8], k: u32, i: usize) -> &[u8]
    ensures result_value { result.now ≡ row_at k s.now i }
    ensures ref_ptr_value { result.ref_ptr ≡ inside s.entry.ref_ptr (row_start k s.now i) }
{
    molecule::fix_item(s, k, i)
}

// Whether the bytes of a row from `at` on begin with the key.
pub fn has_key(row: &[u8], at: usize, key: &[u8]) -> bool
    ensures { result ≡ has_key at key.now row.now }
{
    let rest = molecule::part(row, at, row.len());
    let part = molecule::part(rest, 0, key.len());
    lists::same(part, key)
}

// Where the first row with the key at `at` stands.
pub fn find(s: &[u8], k: u32, at: usize, key: &[u8]) -> Option<usize>
    ensures { result ≡ find k at key.now s.now }
{
    for i in 0..row_count(s) {
        let x = row(s, k, i);
        if has_key(x, at, key) {
            return Some(i);
        }
    }
    None
}

// A row behind the last, where there is room.
pub fn push(s: &mut [u8], k: u32, row: &[u8])
    ensures { s.new ≡ pushed k row.now s.old }
{
    let w = k as usize;
    if row.len() != w {
        return;
    }
    let n = molecule::fix_count(s);
    let at = 4 + w * n as usize;
    if s.len() < at + w {
        return;
    }
    // four bytes hold the count modulo 2^32
    write::put(s, at, row);
    write::put_u32(s, 0, n.wrapping_add(1));
}

// Another row in place of row i.
pub fn replace(s: &mut [u8], k: u32, i: usize, row: &[u8])
    ensures { s.new ≡ replaced k i row.now s.old }
{
    let n = molecule::fix_count(s) as usize;
    if n <= i {
        return;
    }
    let w = k as usize;
    let at = 4 + w * i;
    if row.len() != w {
        return;
    }
    write::put(s, at, row);
}

// Takes row i out: the rows behind it move one place up.
pub fn remove(s: &mut [u8], k: u32, i: usize)
    ensures { s.new ≡ removed k i s.old }
{
    let count = molecule::fix_count(s);
    let n = count as usize;
    if n <= i {
        return;
    }
    let w = k as usize;
    let end = 4 + w * n;
    if s.len() < end {
        return;
    }
    let to = 4 + w * i;
    let from = to + w;
    s.copy_within(from..end, to);
    write::put_u32(s, 0, count - 1);
}
