// Items of a case file: where they end, and their bodies.
ghost use Rattle.std.specs.Prelude.{◌≡◌, ◌≤◌, ◌<◌, length, eqb, IfSome};
ghost use Rattle.molecule.specs.Partial.{only};
ghost use Rattle.case_file.specs.CaseFile.{kind_at, length_at, body_at, all_zero, item_at, optional_at};
ghost use Rattle.case_file.specs.Walk.{kind_number, next_of, case_places, optional_body};

use arithmetic::little_endian;

// The kinds of the items, in the order in which they stand, with their numbers in a word. A record is an output and its data, or one item where its cell is not
// live.
#[derive(Clone, Copy, Debug, PartialEq, Eq, Hash)]
pub enum Kind {
    Ours = 1,
    Peer,
    Lock,
    Udt,
    Source,
    Rate,
    Output,
    Data,
    NotLive,
}

// The places of the items before the records, each but the first after the one before it, and of the records. Our transaction stands at 0.
#[derive(Clone, Copy, Debug, PartialEq, Eq, Hash)]
pub struct Places {
    pub peer: usize,
    pub lock: usize,
    pub udt: usize,
    pub source: usize,
    pub rate: usize,
    pub records: usize,
}

// How many lengths there are: the low 28 bits of a word.
const LENGTHS: u32 = 268_435_456;

// The bytes of a case file.
#[derive(Clone, Copy, Debug, PartialEq, Eq)]
pub(crate) struct CaseFile<'a> {
    pub bytes: &'a [u8],
    ghost short: { length bytes.now ≤ 65536 },
}

fn all_zero(s: &[u8]) -> bool
    ensures { result ≡ all_zero s.now }
{
    s.iter().all(|b| *b == 0)
}

impl<'a> CaseFile<'a> {
    // Whether the word at a place has a kind. Where no word stands it has none.
    pub(crate) fn is_kind(self, kind: Kind, at: usize) -> bool
        ensures { result ≡ eqb (kind_at self.entry.bytes.now at) (kind_number kind) }
    {
        little_endian::u32_at(self.bytes, at) / LENGTHS == kind as u32
    }

    // The length of a body that the word at a place has.
    fn length_at(self, at: usize) -> u32
        ensures { result ≡ length_at self.entry.bytes.now at }
    {
        little_endian::u32_at(self.bytes, at) % LENGTHS
    }

    // The body of the item at a place, as much of it as there is.
    pub(crate) fn body(self, at: usize) -> &'a [u8]
        ensures result_value { result.now ≡ body_at self.entry.bytes.now at }
        ensures result_len_bound { length result.now ≤ 65536 }
    {
        if self.bytes.len() < at {
            return molecule::part(self.bytes, 0, 0);
        }
        let from = at + 4;
        let n = self.length_at(at) as usize;
        molecule::part(self.bytes, from, from + n)
    }

    // The place after the item of a kind at a place: its word, its body, and its padding, which is zero.
    pub(crate) fn item_end(self, kind: Kind, at: usize) -> Option<usize>
        ensures value { result ≡ next_of (item_at self.entry.bytes.now (kind_number kind) at) }
        ensures within { IfSome result (λ end. (at < end) × (end ≤ length self.entry.bytes.now)) }
    {
        let s = self.bytes;
        if s.len() < 4 || s.len() - 4 < at || !self.is_kind(kind, at) {
            return None;
        }
        let from = at + 4;
        let n = self.length_at(at) as usize;
        let padded = (n + 3) / 4 * 4;
        if s.len() - from < padded {
            return None;
        }
        let padding = molecule::part(s, from + n, from + padded);
        if all_zero(padding) {
            Some(from + padded)
        } else {
            None
        }
    }

    // The same for an item whose body has so many bytes.
    pub(crate) fn sized_end(self, kind: Kind, len: u32, at: usize) -> Option<usize>
        ensures value { result ≡ next_of (only (eqb (length_at self.entry.bytes.now at) len) (item_at self.entry.bytes.now (kind_number kind) at)) }
        ensures within { IfSome result (λ end. (at < end) × (end ≤ length self.entry.bytes.now)) }
    {
        if self.length_at(at) != len {
            return None;
        }
        self.item_end(kind, at)
    }

    // The same for an item that may be missing.
    fn optional_end(self, kind: Kind, at: usize) -> Option<usize>
        ensures { result ≡ next_of (optional_at self.entry.bytes.now (kind_number kind) at) }
    {
        if self.is_kind(kind, at) {
            self.item_end(kind, at)
        } else {
            Some(at)
        }
    }

    // The body of an item that may be missing: then it is empty.
    pub(crate) fn optional_body(self, kind: Kind, at: usize) -> &'a [u8]
        ensures { result.now ≡ optional_body self.entry.bytes.now (kind_number kind) at }
    {
        if !self.is_kind(kind, at) {
            return molecule::part(self.bytes, 0, 0);
        }
        self.body(at)
    }

    // The places of a file, if each item is in its shape; a fee rate has 8 bytes.
    pub(crate) fn find_places(self) -> Option<Places>
        ensures value { result ≡ case_places self.entry.bytes.now }
        ensures within { IfSome result (λ p. (0 < p.records) × (p.records ≤ length self.entry.bytes.now)) }
    {
        let peer = self.optional_end(Kind::Ours, 0)?;
        let lock = self.item_end(Kind::Peer, peer)?;
        let udt = self.item_end(Kind::Lock, lock)?;
        let source = self.optional_end(Kind::Udt, udt)?;
        let rate = self.item_end(Kind::Source, source)?;
        let records = self.sized_end(Kind::Rate, 8, rate)?;
        Some(Places {
            peer,
            lock,
            udt,
            source,
            rate,
            records,
        })
    }
}
