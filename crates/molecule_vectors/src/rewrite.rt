// A value that was read, written again: what the library's readers answer goes through the library's writers. A length that is capped belongs to a string
// longer than any buffer here, which would come out other than it went in.
use crate::types::Kind;
use error::Refusal;
use molecule::write;

// A buffer, and where the next part goes.
#[derive(Debug, Drop)]
struct Output<'a> {
    room: &'a mut [u8],
    at: usize,
}

impl Output<'_> {
    fn put(&mut self, x: &[u8]) {
        self.at = write::put(self.room, self.at, x);
    }

    fn put_u32(&mut self, n: u32) {
        self.at = write::put_u32(self.room, self.at, n);
    }

    fn put_bytes(&mut self, x: &[u8]) {
        self.put_u32(capped(x.len()));
        self.put(x);
    }

    // How far it is from `start` to the next part, put at `at`.
    fn put_distance(&mut self, at: usize, start: usize) {
        write::put_u32(self.room, at, capped(self.at.saturating_sub(start)));
    }

    // A header and its items, as a table and a dynvec have: each item with its offset, and the size once it is known.
    fn put_items(&mut self, s: &[u8]) {
        let start = self.at;
        let n = molecule::item_count(s);
        self.at = offset_place(start, n);
        for i in 0..n {
            self.put_distance(offset_place(start, i), start);
            self.put(molecule::item(s, i as usize));
        }
        self.put_distance(start, start);
    }

    // A list or a table, or nothing.
    fn put_optional(&mut self, s: &[u8]) {
        if !s.is_empty() {
            self.put_items(s);
        }
    }

    // A list of items of so many bytes each.
    fn put_fixvec(&mut self, s: &[u8], item_bytes: u32) {
        let n = molecule::fix_count(s);
        self.put_u32(n);
        for i in 0..n {
            self.put(molecule::fix_item(s, item_bytes, i as usize));
        }
    }

    // The value that s is read as.
    fn put_value(&mut self, s: &[u8], kind: Kind) {
        match kind {
            Kind::Uint32 => self.put_u32(molecule::word(s, 0)),
            Kind::Bytes => self.put_bytes(molecule::content(s)),
            Kind::Uint32Vec => self.put_fixvec(s, 4),
            Kind::OutPoints => self.put_fixvec(s, 36),
            Kind::CellDeps => self.put_fixvec(s, 37),
            Kind::MixedType
            | Kind::Script
            | Kind::CellOutput
            | Kind::BytesVec
            | Kind::BytesVecOpt
            | Kind::Records
            | Kind::TokenCells => self.put_optional(s),
            Kind::Transaction => self.at = put_transaction(self.room, s).unwrap_or(self.at),
        }
    }
}

fn capped(n: usize) -> u32 {
    u32::try_from(n).unwrap_or(u32::MAX)
}

// Where the offset of item i stands, in a header at `start`; the first of i items follows the header there.
fn offset_place(start: usize, i: u32) -> usize {
    start.saturating_add(4 + 4 * i as usize)
}

// By the library's own writer, to the start of out: how long it is.
pub fn put_transaction(out: &mut [u8], s: &[u8]) -> Result<usize, Refusal> {
    transaction_writer::rewrite(s, out)
}

// Puts the value that s is read as to the start of `room`: how long it is.
pub fn put_value(room: &mut [u8], s: &[u8], kind: Kind) -> usize {
    let mut out = Output { room, at: 0 };
    out.put_value(s, kind);
    out.at
}
