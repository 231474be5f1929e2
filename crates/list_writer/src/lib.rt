// Writes a list of unsized items: one of its own, the later items of another list, and a last one. Sizes stop at 133,117, which is too long for a
// transaction, so that no sum overflows and every offset that is written fits 32 bits.
#![tactic(auto, using(crate::proofs::Ways::ways))]

ghost use Rattle.std.specs.Prelude.{◌≡◌, ◌+◌, ◌*◌, ◌≤◌, ◌<◌, ◌^◌, min, length, nat_le};
ghost use mathlib.Core.List.{flatten};
ghost use Rattle.arithmetic.specs.LittleEndian.{to_le};
ghost use Rattle.molecule.specs.Items.{unwords};
ghost use Rattle.molecule.specs.Write.{put_at, put_end, Put};
ghost use Rattle.list_writer.specs.ListWriter.{joined, item_or, items_after_first, if_positive, put_list, put_list_end};
ghost use Rattle.list_writer.specs.Around.{head_size, offset_words, fits_at, Room};
ghost use Rattle.list_writer.specs.Parts.{list_len, head_in, list_bytes, size_of, lengths_of};

use molecule::write;

// The longest transaction that is written, and so the longest list: 133,120 bytes with the 4 of its size.
pub const MAX_BYTES: usize = 133_116;

// The sum of two lengths, and 133,117 for all that is more.
pub fn capped(m: usize, n: usize) -> usize
    ensures { result ≡ min (m + n) 133117 }
{
    m.saturating_add(n).min(MAX_BYTES + 1)
}

// Whether n bytes fit a transaction, and a buffer of `len` bytes from `at` on.
#[tactic(auto, using(std::proofs::lemmas::Bool::Decides::nat_tests), unfolding(crate::specs::Around::fits_at))]
pub fn fits(n: usize, at: usize, len: usize) -> bool
    ensures { result ≡ fits_at n at len }
{
    n <= MAX_BYTES && at <= len && n <= len - at
}

// How long stretches of bytes are together, and 133,117 for all that is more.
fn joined_len(parts: &[&[u8]]) -> usize
    ensures { result ≡ min (length (joined parts.now)) 133117 }
{
    parts.iter().fold(0, |n, part| capped(n, part.len()))
}

// Whether they fit `room` bytes.
#[tactic(auto, using(std::proofs::lemmas::Bool::Decides::nat_tests, crate::proofs::JoinLaws::part_in))]
fn has_room(parts: &[&[u8]], room: usize) -> bool
    ensures { result ≡ nat_le (length (joined parts.now)) room }
{
    let mut left = room;
    for part in parts {
        let Some(rest) = left.checked_sub(part.len()) else {
            return false;
        };
        left = rest;
    }
    true
}

// Puts them at `at`, one after the other, and answers the place after them. Where there is no room for all of them nothing is written, and the place
// that is answered is the one that was given.
#[tactic(auto, using(std::proofs::lemmas::Bool::Decides::nat_tests, crate::proofs::JoinLaws::stretches_start), unfolding(molecule::specs::Write::put_at, molecule::specs::Write::put_end))]
pub fn put_all(out: &mut [u8], at: usize, parts: &[&[u8]]) -> usize
    ensures out_after { out.new ≡ put_at out.old at (joined parts.now) }
    ensures value { result ≡ put_end out.old at (joined parts.now) }
{
    if out.len() < at || !has_room(parts, out.len() - at) {
        return at;
    }
    let mut next = at;
    for part in parts {
        next = write::put(out, next, part);
    }
    next
}

// Puts numbers of four bytes likewise.
#[tactic(auto, using(std::proofs::lemmas::Bool::Decides::nat_tests, crate::proofs::JoinLaws::word_lengths), unfolding(molecule::specs::Write::put_at, molecule::specs::Write::put_end))]
pub fn put_words(out: &mut [u8], at: usize, words: &[u32]) -> usize
    ensures out_after { out.new ≡ put_at out.old at (unwords words.now) }
    ensures value { result ≡ put_end out.old at (unwords words.now) }
{
    if out.len() < at || (out.len() - at) / 4 < words.len() {
        return at;
    }
    let mut next = at;
    for x in words {
        next = write::put_u32(out, next, *x);
    }
    next
}

// Item i of s; empty bytes, which are their length alone, where s has fewer.
#[tactic(auto, unfolding(crate::specs::ListWriter::item_or, crate::specs::ListWriter::bytes_item, arithmetic::specs::LittleEndian::to_le))]
fn item_or(s: &[u8], i: usize) -> &[u8]
    ensures { result.now ≡ item_or s.now i }
{
    if molecule::item_count(s) as usize <= i {
        return &[0, 0, 0, 0];
    }
    molecule::item(s, i)
}

// The items of a list after its first: `count` of them, each that is missing as empty bytes.
#[derive(Clone, Copy, Debug, PartialEq, Eq)]
pub struct Later<'a> {
    pub list: &'a [u8],
    pub count: usize,
}

impl Later<'_> {
    // How many bytes they have.
    fn len(self) -> usize
        ensures { result ≡ min (length (flatten (items_after_first self.entry.list.now self.entry.count))) 133117 }
    {
        let mut n = 0;
        for i in 0..self.count {
            n = capped(n, item_or(self.list, i + 1).len());
        }
        n
    }

    // Puts them.
    fn put(self, out: &mut [u8], at: usize) -> usize
        requires { at + length (flatten (items_after_first self.list.now self.count)) ≤ length out.old }
        ensures { Put out.old at (flatten (items_after_first self.entry.list.now self.entry.count)) out.new result }
    {
        let mut next = at;
        for i in 0..self.count {
            next = write::put(out, next, item_or(self.list, i + 1));
        }
        next
    }

    // Puts where each of them begins, the first at o.
    fn put_places(self, out: &mut [u8], at: usize, o: usize) -> usize
        requires { (at + 4 * self.count ≤ length out.old) × (o + length (flatten (items_after_first self.list.now self.count)) < 2 ^ 32) }
        ensures put { Put out.old at (offset_words o (items_after_first self.entry.list.now self.entry.count)) out.new result }
        ensures value { result ≡ at + 4 * self.entry.count }
    {
        let mut next = at;
        let mut place = o;
        for i in 0..self.count {
            next = write::put_u32(out, next, place as u32);
            place += item_or(self.list, i + 1).len();
        }
        next
    }
}

// How many bytes the place of a last item of n bytes takes: an empty one is none.
fn place_len(n: usize) -> usize
    ensures { result ≡ min (4 * n) 4 }
{
    if n == 0 { 0 } else { 4 }
}

// Puts that place.
#[tactic(auto, using(crate::proofs::HeadLaws::place))]
fn put_place(out: &mut [u8], at: usize, n: usize, place: usize) -> usize
    requires { (at + min (4 * n) 4 ≤ length out.old) × (place < 2 ^ 32) }
    ensures put { Put out.old at (if_positive n (to_le 4 place)) out.new result }
    ensures value { result ≡ at + min (4 * n) 4 }
{
    if n == 0 {
        return at;
    }
    write::put_u32(out, at, place as u32)
}

// A list by the lengths of its first item and its last, which is none where it has no bytes, with `items` between them.
#[derive(Clone, Copy, Debug, PartialEq, Eq)]
pub struct Lengths<'a> {
    pub first: usize,
    pub items: Later<'a>,
    pub last: usize,
}

impl Lengths<'_> {
    // How long the list is. More items than a transaction has places for are not looked at.
    pub fn total(self) -> usize
        ensures { result ≡ min (list_len self.entry) 133117 }
    {
        if self.items.count > MAX_BYTES / 4 {
            return MAX_BYTES + 1;
        }
        let n = capped(8 + 4 * self.items.count + place_len(self.last), self.first);
        let n = capped(n, self.items.len());
        capped(n, self.last)
    }

    // Puts its header.
    #[tactic(auto, using(molecule::proofs::WriteLaws::end_yes, crate::proofs::JoinLaws::word_lengths))]
    fn put_head(self, out: &mut [u8], at: usize) -> usize
        requires { Room out.old at (list_len self) }
        ensures put { Put out.old at (head_in self.entry) out.new result }
        ensures value { result ≡ at + head_size self.entry.items.count self.entry.last }
    {
        let h = 8 + 4 * self.items.count + place_len(self.last);
        let o = h + self.first;
        let end = o + self.items.len();
        let at = put_words(out, at, &[(end + self.last) as u32, h as u32]);
        let at = self.items.put_places(out, at, o);
        put_place(out, at, self.last, end)
    }
}

// A list by its first item and its last, each in stretches, with `items` between them.
#[derive(Clone, Copy, Debug, PartialEq, Eq)]
pub struct Parts<'a> {
    pub first: &'a [&'a [u8]],
    pub items: Later<'a>,
    pub last: &'a [&'a [u8]],
}

impl<'a> Parts<'a> {
    fn lengths(self) -> Lengths<'a>
        ensures { result ≡ lengths_of self.entry }
    {
        Lengths {
            first: joined_len(self.first),
            items: self.items,
            last: joined_len(self.last),
        }
    }

    // Puts the list where it fits.
    #[tactic(auto, using(molecule::proofs::WriteLaws::end_yes))]
    fn put_whole(self, out: &mut [u8], at: usize) -> usize
        requires { Room out.old at (size_of self) }
        ensures { Put out.old at (list_bytes self.entry) out.new result }
    {
        let at = self.lengths().put_head(out, at);
        let at = put_all(out, at, self.first);
        let at = self.items.put(out, at);
        put_all(out, at, self.last)
    }

    // Puts the list. Where it does not fit a transaction and the buffer nothing is written, and the place that is answered is the one that was given.
    pub fn put(self, out: &mut [u8], at: usize) -> usize
        ensures out_after { out.new ≡ put_list out.old at (list_bytes self.entry) }
        ensures value { result ≡ put_list_end out.old at (list_bytes self.entry) }
    {
        if !fits(self.lengths().total(), at, out.len()) {
            return at;
        }
        self.put_whole(out, at)
    }
}
