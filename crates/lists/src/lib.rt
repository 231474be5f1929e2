// Lists compared item by item: the peer's list goes on from ours. (Whether it holds all of ours is for crate item_lookup to say.)
#![tactic(auto, using(crate::proofs::Ways::ways))]

ghost use Rattle.std.specs.Prelude.{◌≡◌, ℕ, ◌+◌, ◌<◌, ◌≤◌, List, length, take, drop};
ghost use Rattle.molecule.specs.Layout.{span, fix_items, item_count, items_of, entries_of};
ghost use Rattle.lists.specs.Lists.{eq_bytes, extends};

// Output 0 is the funding cell, which a peer may change.
const FIRST_OUTPUT: usize = 1;

// So may its data.
const FIRST_ENTRY: usize = 1;

// How many bytes are compared at a time: an input or a cell dep has a few short blocks, a script one block or two, and a long run is compared at the speed of
// memory.
const SHORT_BLOCK: usize = 16;

const BLOCK: usize = 64;

const TWO_BLOCKS: usize = 128;

const LONG_BLOCK: usize = 512;

// Whether the N bytes from `at` on are the same. How often the loop runs is known, and it has no early exit, so that it is compiled to wide comparisons; `==`
// on the two parts is slower.
fn same_block<const N: usize>(a: &[u8], b: &[u8], at: usize) -> bool
    requires at_in_bounds { at + N ≤ length a.now }
    requires at_in_bounds_2 { at + N ≤ length b.now }
    ensures { result ≡ eq_bytes (take N (drop at a.now)) (take N (drop at b.now)) }
{
    let mut ok = true;
    for i in 0..N {
        ok &= a[at + i] == b[at + i];
    }
    ok
}

// Block by block; the last block ends with the bytes, and may look at some of them again.
fn same_by_blocks<const N: usize>(a: &[u8], b: &[u8]) -> bool
    requires a_len { length a.now ≡ length b.now }
    requires in_bounds { N ≤ length a.now }
    requires some { 0 < N }
    ensures { result ≡ eq_bytes a.now b.now }
{
    let last = a.len() - N;
    let mut i = 0;
    // a while: by `step_by` a short string takes a fifth longer
    while i < last {
        if !same_block::<N>(a, b, i) {
            return false;
        }
        i += N;
    }
    same_block::<N>(a, b, last)
}

// Whether a and b hold the same bytes. By hand: on a long run `==` takes a fifth longer.
pub fn same(a: &[u8], b: &[u8]) -> bool
    ensures { result ≡ eq_bytes a.now b.now }
{
    // taken anew, a slice comes in as its two words, and not by way of memory
    let a = &a[0..a.len()];
    let b = &b[0..b.len()];
    if a.len() != b.len() || a.len() < SHORT_BLOCK {
        return a == b;
    }
    if a.len() < BLOCK {
        return same_by_blocks::<SHORT_BLOCK>(a, b);
    }
    if a.len() < LONG_BLOCK {
        return same_by_blocks::<BLOCK>(a, b);
    }
    same_by_blocks::<LONG_BLOCK>(a, b)
}

// The same, for two scripts. Most have one block or two, and this is short enough to be compiled into a caller's loop.
pub fn same_script(a: &[u8], b: &[u8]) -> bool
    ensures { result ≡ eq_bytes a.now b.now }
{
    if a.len() != b.len() || a.len() < BLOCK || a.len() > TWO_BLOCKS {
        return same(a, b);
    }
    same_block::<BLOCK>(a, b, 0) && same_block::<BLOCK>(a, b, a.len() - BLOCK)
}

// Fixvecs of items of k bytes: each item of a stands in b at its place. The items lie next to each other, so their bytes are compared as one run.
pub fn fix_extends(a: &[u8], b: &[u8], k: u32) -> bool
    ensures { result ≡ extends (fix_items k a.now) (fix_items k b.now) }
{
    let m = molecule::fix_count(a) as usize;
    let n = molecule::fix_count(b) as usize;
    let e = 4 + k as usize * m;
    m <= n && same(molecule::part(a, 4, e), molecule::part(b, 4, e))
}

// Dynvecs of which `item` reads an item: each item of a from `first` on stands in b at its place.
fn items_stand<'a, F: Fn(&'a [u8], usize) -> &'a [u8]>(
    a: &'a [u8],
    b: &'a [u8],
    first: usize,
    item: F,
) -> bool
    requires { F.IsAlwaysCallable item }
    ensures { (at : List ℕ → ℕ → List ℕ) → ((s : _) (i : ℕ) (x : _) → F.post item s i x → x.now ≡ at s.now i) → result
        ≡ extends (drop first (span (at a.now) 0 (item_count a.now))) (drop first (span (at b.now) 0 (item_count b.now))) }
{
    let m = molecule::item_count(a) as usize;
    let n = molecule::item_count(b) as usize;
    for i in first..m {
        if n <= i || !same(item(a, i), item(b, i)) {
            return false;
        }
    }
    true
}

// Dynvecs: each item of a after the first stands in b at its place.
pub fn items_extend(a: &[u8], b: &[u8]) -> bool
    ensures { result ≡ extends (drop 1 (items_of a.now)) (drop 1 (items_of b.now)) }
{
    items_stand(a, b, FIRST_OUTPUT, molecule::item)
}

// The same for dynvecs of bytes.
pub fn entries_extend(a: &[u8], b: &[u8]) -> bool
    ensures { result ≡ extends (drop 1 (entries_of a.now)) (drop 1 (entries_of b.now)) }
{
    items_stand(a, b, FIRST_ENTRY, molecule::entry)
}
