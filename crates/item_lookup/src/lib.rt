// Whether one list of items of one size holds all of another. What stands at its own place is seen there. For the others the items of the list are put into
// chains by a digest of their bytes, and an item is looked for in its chain; where a peer has made many meet in one chain, an index (crate item_index) is made.
// So of lists of up to 3,600 items the time goes by the bytes lent, and by n log n comparisons at most, whatever the bytes.
#![tactic(auto, using(crate::proofs::Ways::ways))]

ghost use Rattle.std.specs.Prelude.{◌≡◌, ◌<◌, ◌≤◌, true, length, MatchOption};
ghost use Rattle.molecule.specs.Layout.{fix_items};
ghost use Rattle.lists.specs.Lists.{contains_all};
ghost use Rattle.item_lookup.specs.Lookup.{is_among, item_among, rest_among};

use item_index::Keys;

// For how many items there is room: a transaction of 133,116 bytes has no more cell deps.
const ROOM: usize = 3600;

// How many chains there are.
const CHAINS: usize = 8192;

// So many items of a chain are looked at. No chain of 3,600 items is longer unless they were made to meet: by chance one in 10^15 is.
const STEPS: usize = 16;

// Behind the last item of a chain. There is no heap for chains of boxes, and links that are an `Option<u32>` take twice the room.
const NONE: u32 = 4_294_967_295;

// So few are looked at one by one.
const FEW: usize = 16;

// So many items that do not stand at their own place are looked for one by one before chains are made.
const SCANS: usize = 2;

// ---- digests: what they are decides only how long a search takes, so no contract says it

// Both halves of a word's bits, each times a prime.
fn spread(x: u64) -> u64 {
    let low = x % 4294967296;
    let high = x / 4294967296;
    (2654435761 * low).wrapping_add(3266489917 * high)
}

// The digest with a word more.
fn mix(digest: u64, word: [u8; 8]) -> u64 {
    spread(digest ^ u64::from_le_bytes(word))
}

// The digest of a string, word by word; the last word ends with it, and may look at some bytes again. Strings of under eight bytes share one.
fn digest(x: &[u8]) -> u64 {
    let Some(last) = x.last_chunk::<8>() else {
        return 0;
    };
    let (words, _) = x[..x.len() - 1].as_chunks::<8>();
    let sum = words.iter().fold(0, |sum, word| mix(sum, *word));
    mix(sum, *last)
}

// The chain of an item: the highest thirteen bits of its digest, spread once more.
fn chain_of(x: &[u8]) -> usize
    ensures { result < 8192 }
{
    (spread(digest(x)) / 2251799813685248) as usize
}

// What a chain says of an item.
#[derive(Clone, Copy, Debug, PartialEq, Eq)]
enum Chain {
    Met,
    Ended,
    TooLong,
}

// The items of `ours` before place m are looked for among the first n of `theirs`. All have `size` bytes. Both counts stand in the bytes too; as methods they
// would be read again for each item that is looked at.
#[derive(Clone, Copy, Debug, PartialEq, Eq)]
struct Search<'a> {
    ours: &'a [u8],
    m: usize,
    theirs: &'a [u8],
    n: u32,
    size: u32,
}

impl<'a> Search<'a> {
    // ---- chains

    // Looks for x in a chain, from its item `first` on.
    fn look(self, next: &[u32], first: u32, x: &[u8]) -> Chain
        requires { self.n ≤ length next.now }
        ensures { result ≡ Chain.Met → is_among x.now self.entry.theirs.now self.entry.size self.entry.n ≡ true }
    {
        let n = self.n as usize;
        let mut place = first as usize;
        for _ in 0..STEPS {
            if n <= place {
                return Chain::Ended;
            }
            let item = molecule::fix_item(self.theirs, self.size, place);
            if lists::same(x, item) {
                return Chain::Met;
            }
            place = next[place] as usize;
        }
        Chain::TooLong
    }

    // Puts their items into chains, but for those that are met there: `heads` has the first item of each chain, `next` the one after it. Where a chain is too
    // long the others are left out. What is linked decides only how long a search takes.
    fn link(self, heads: &mut [u32], next: &mut [u32])
        requires in_bounds { 8192 ≤ length heads.old }
        requires n_in_bounds { self.n ≤ length next.old }
    {
        for i in 0..self.n {
            let x = molecule::fix_item(self.theirs, self.size, i as usize);
            let chain = chain_of(x);
            match self.look(next, heads[chain], x) {
                Chain::Met => {}
                Chain::Ended => {
                    next[i as usize] = heads[chain];
                    heads[chain] = i;
                }
                Chain::TooLong => return,
            }
        }
    }

    // The first of our items from `from` on that is not met in its chain: those before it are among theirs.
    fn first_unmet(self, from: usize, heads: &[u32], next: &[u32]) -> Option<usize>
        requires in_bounds { 8192 ≤ length heads.now }
        requires n_in_bounds { self.n ≤ length next.now }
        ensures { MatchOption result (rest_among self.entry from ≡ true) (λ i. (i < self.entry.m) × (rest_among self.entry from ≡ rest_among self.entry i)) }
    {
        for i in from..self.m {
            let x = molecule::fix_item(self.ours, self.size, i);
            match self.look(next, heads[chain_of(x)], x) {
                Chain::Met => {}
                Chain::Ended | Chain::TooLong => return Some(i),
            }
        }
        None
    }

    // ---- one by one, and by an index

    // Whether our item i is among theirs, which are looked at one by one.
    fn scan_item(self, i: usize) -> bool
        ensures { result ≡ item_among self.entry i }
    {
        let x = molecule::fix_item(self.ours, self.size, i);
        for j in 0..self.n as usize {
            let y = molecule::fix_item(self.theirs, self.size, j);
            if lists::same(x, y) {
                return true;
            }
        }
        false
    }

    // Whether our items from `from` on are among theirs, which are looked at one by one.
    fn scan_all(self, from: usize) -> bool
        ensures { result ≡ rest_among self.entry from }
    {
        for i in from..self.m {
            if !self.scan_item(i) {
                return false;
            }
        }
        true
    }

    // The same by an index that is made in s; t is work room.
    fn index_all(self, from: usize, s: &mut [u32], t: &mut [u32]) -> bool
        requires n_in_bounds { self.n ≤ length s.old }
        requires n_in_bounds_2 { self.n ≤ length t.old }
        ensures { result ≡ rest_among self.entry from }
    {
        let keys = Keys {
            items: self.theirs,
            size: self.size,
            skip: 0,
        };
        keys.build(self.n, s, t);
        for i in from..self.m {
            let x = molecule::fix_item(self.ours, self.size, i);
            if !keys.has(&s[..self.n as usize], x) {
                return false;
            }
        }
        true
    }

    // The same by chains, which are links between places: there is no heap. An item that is not met in its chain is looked for one by one. If it is there all
    // the same, its chain is long: the rest goes by an index, for which the chains make room.
    fn chain_all(self, from: usize) -> bool
        requires { self.n ≤ 3600 }
        ensures { result ≡ rest_among self.entry from }
    {
        let mut heads = [NONE; CHAINS];
        let mut next = [0u32; ROOM];
        self.link(&mut heads, &mut next);
        let Some(unmet) = self.first_unmet(from, &heads, &next) else {
            return true;
        };
        if !self.scan_item(unmet) {
            return false;
        }
        self.index_all(unmet + 1, &mut heads, &mut next)
    }

    // Whether our items from `from` on are among theirs.
    fn has_rest(self, from: usize) -> bool
        ensures { result ≡ rest_among self.entry from }
    {
        let n = self.n as usize;
        if n <= FEW || ROOM < n {
            return self.scan_all(from);
        }
        self.chain_all(from)
    }

    // ---- each at its own place

    // Whether our item i stands in their list at its place.
    fn same_place(self, i: usize) -> bool
        ensures { result ≡ true → item_among self.entry i ≡ true }
    {
        if self.n as usize <= i {
            return false;
        }
        let x = molecule::fix_item(self.ours, self.size, i);
        let y = molecule::fix_item(self.theirs, self.size, i);
        lists::same(x, y)
    }

    // Whether all of ours are among theirs. A few that do not stand at their own place are looked for one by one, and for more chains are made.
    fn moved_in(self) -> bool
        ensures { result ≡ rest_among self.entry 0 }
    {
        let mut moved = 0;
        for i in 0..self.m {
            if !self.same_place(i) {
                if SCANS <= moved {
                    return self.has_rest(i);
                }
                if !self.scan_item(i) {
                    return false;
                }
                moved += 1;
            }
        }
        true
    }
}

// Each item of a is in b. Most lists go on from one another, which is one comparison of bytes. Over 3,600 items are looked at one by one; a transaction that is
// judged has no more.
pub fn fix_has_all(a: &[u8], b: &[u8], k: u32) -> bool
    ensures { result ≡ contains_all (fix_items k a.now) (fix_items k b.now) }
{
    if lists::fix_extends(a, b, k) {
        return true;
    }
    let search = Search {
        ours: a,
        m: molecule::fix_count(a) as usize,
        theirs: b,
        n: molecule::fix_count(b),
        size: k,
    };
    search.moved_in()
}
