// An index over a list of items of one size: the places of its items, in the order of the items' bytes. Places are sorted by merging, in room that the caller
// lends, and an item is looked up by halves, so that the time goes by n log n comparisons whatever the bytes.
#![tactic(auto, using(crate::proofs::Ways::ways))]

pub mod ordering;

ghost use Rattle.std.specs.Prelude.{◌≡◌, ◌+◌, ◌^◌, ◌≤◌, ◌<◌, ◌++◌, length, position, IsPermutation};
ghost use Rattle.molecule.specs.Layout.{span};
ghost use Rattle.lists.specs.Lists.{eq_bytes, contains};
ghost use Rattle.item_index.specs.Index.{comes, Rises, Index, Counts};
ghost use Rattle.item_index.specs.Keys.{keys_of};
ghost use Rattle.item_index.specs.Order.{order_of};

use std::cmp::Ordering;

// The keys of a list's items of `size` bytes: of each the bytes from `skip` on.
#[derive(Clone, Copy, Debug, PartialEq, Eq)]
pub struct Keys<'a> {
    pub items: &'a [u8],
    pub size: u32,
    pub skip: usize,
}

impl<'a> Keys<'a> {
    // The key of item i.
    fn key(self, i: usize) -> &'a [u8]
        ensures { result.now ≡ keys_of self.entry i }
    {
        let x = molecule::fix_item(self.items, self.size, i);
        molecule::part(x, self.skip, x.len())
    }

    // Whether the item at p comes before the one at q; of two that are the same the one at the smaller place comes first. In a call of its own, to which the
    // keys go by way of memory, it makes the sort a fifth slower.
    #[inline(always)]
    fn comes_first(self, p: u32, q: u32) -> bool
        ensures { result ≡ comes (keys_of self.entry) p q }
    {
        match ordering::compare(self.key(p as usize), self.key(q as usize)) {
            Ordering::Less => true,
            Ordering::Equal => p < q,
            Ordering::Greater => false,
        }
    }

    // Merges two parts whose places are in order.
    fn merge(self, left: &[u32], right: &[u32], out: &mut [u32])
        requires out_len { length out.old ≡ length left.now + length right.now }
        requires left_rises { Rises (keys_of self) left.now 0 (length left.now) }
        requires right_rises { Rises (keys_of self) right.now 0 (length right.now) }
        ensures same { IsPermutation (left.now ++ right.now) out.new }
        ensures order { Rises (keys_of self.entry) out.new 0 (length out.new) }
    {
        let mut i = 0;
        let mut j = 0;
        for place in out.iter_mut() {
            if i == left.len() || j < right.len() && self.comes_first(right[j], left[i]) {
                *place = right[j];
                j += 1;
            } else {
                *place = left[i];
                i += 1;
            }
        }
    }

    // Puts places in the order of their items: the halves are sorted, then merged by way of t. By hand, since `sort_unstable_by` takes over three times as many
    // comparisons as merging where a peer picks the order, and the library has no stable sort without a heap.
    fn sort(self, s: &mut [u32], t: &mut [u32])
        requires { length s.old ≡ length t.old }
        ensures same { IsPermutation s.old s.new }
        ensures order { Rises (keys_of self.entry) s.new 0 (length s.new) }
    {
        let mid = s.len() / 2;
        if mid == 0 {
            return;
        }
        self.sort(&mut s[..mid], &mut t[..mid]);
        self.sort(&mut s[mid..], &mut t[mid..]);
        // where the second half goes on from the first there is nothing to do
        if self.comes_first(s[mid], s[mid - 1]) {
            let (left, right) = s.split_at(mid);
            self.merge(left, right, t);
            copy_back(s, t);
        }
    }

    // Makes the index of the first n items in s, where both slices have room for n places; t is work room. n stands beside the
    // slices since a slice may have more places than a u32 counts: of slices of exact length as little would be promised, with one condition more.
    pub fn build(self, n: u32, s: &mut [u32], t: &mut [u32])
        ensures { n ≤ length s.old → n ≤ length t.old → Index (keys_of self.entry) n s.new }
    {
        let m = n as usize;
        if s.len() < m || t.len() < m {
            return;
        }
        count_up(&mut s[..m]);
        self.sort(&mut s[..m], &mut t[..m]);
    }

    // Where x first stands among the items of which s is the index.
    pub fn place_of(self, s: &[u32], x: &[u8]) -> Option<usize>
        ensures { Index (keys_of self.entry) (length s.now) s.now → result ≡ position (eq_bytes x.now) (span (keys_of self.entry) 0 (length s.now)) }
    {
        let at = s.partition_point(|place| self.compare(*place, x).is_lt());
        if at == s.len() {
            return None;
        }
        let place = s[at] as usize;
        if lists::same(x, self.key(place)) {
            Some(place)
        } else {
            None
        }
    }

    // Whether x is one of the items of which s is the index. By hand, since it ends where x is met: the library's search goes on, and of items that a peer
    // repeats takes three times as many comparisons.
    pub fn has(self, s: &[u32], x: &[u8]) -> bool
        ensures { Index (keys_of self.entry) (length s.now) s.now → result ≡ contains x.now (span (keys_of self.entry) 0 (length s.now)) }
    {
        let mut low = 0;
        let mut high = s.len();
        while low < high {
            let mid = low + (high - low) / 2;
            match self.compare(s[mid], x) {
                Ordering::Less => low = mid + 1,
                Ordering::Equal => return true,
                Ordering::Greater => high = mid,
            }
        }
        false
    }

    // Which of an item and x comes first.
    fn compare(self, place: u32, x: &[u8]) -> Ordering
        ensures { result ≡ order_of (keys_of self.entry place) x.now }
    {
        ordering::compare(self.key(place as usize), x)
    }
}

// Copies t back to s. By hand: `copy_from_slice` would have the library need C's `memmove`.
fn copy_back(s: &mut [u32], t: &[u32])
    requires { length s.old ≡ length t.now }
    ensures { s.new ≡ t.now }
{
    for i in 0..s.len() {
        s[i] = t[i];
    }
}

// Puts 0, 1 and so on.
fn count_up(s: &mut [u32])
    requires { length s.old < 2 ^ 32 }
    ensures { Counts (length s.new) s.new }
{
    for (i, place) in s.iter_mut().enumerate() {
        *place = i as u32;
    }
}
