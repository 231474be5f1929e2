// The records of a case file, written as the list that `update_for_peer` is lent.
ghost use Rattle.std.specs.Prelude.{◌≡◌, ◌+◌, ◌≤◌, ◌<◌, ◌^◌, ◌*◌, length, IfSome};
ghost use mathlib.Core.List.{[], ◌∷◌, flatten};
ghost use Rattle.molecule.specs.Items.{join, unwords, offsets};
ghost use Rattle.molecule.specs.Write.{Put};
ghost use Rattle.case_file.specs.CaseFile.{item_at, cell_at, resolved_at, records_from};
ghost use Rattle.case_file.specs.Walk.{next_of, body_there, entry_at, next_at, cell_bytes, walk, measured};

use crate::items::{CaseFile, Kind};
use molecule::write;

// How many records there are, and how long their list is.
#[derive(Clone, Copy, Debug, PartialEq, Eq, Hash)]
pub struct Measured {
    pub count: usize,
    pub size: usize,
}

// Puts the three words of a table of two fields.
fn put_header(out: &mut [u8], at: usize, total: u32, second: u32) -> usize
    requires { at + 12 ≤ length out.old }
    ensures { Put out.old at (unwords (total ∷ 12 ∷ second ∷ [])) out.new result }
{
    let at = write::put_u32(out, at, total);
    let at = write::put_u32(out, at, 12);
    write::put_u32(out, at, second)
}

// Puts a cell as a table of its output and its data.
fn put_cell(out: &mut [u8], at: usize, output: &[u8], content: &[u8]) -> usize
    requires { (at + (16 + length output.now + length content.now) ≤ length out.old) × (16 + length output.now + length content.now < 2 ^ 32) }
    ensures { Put out.old at (cell_bytes output.now content.now) out.new result }
{
    let second = 12 + output.len();
    let total = second + 4 + content.len();
    let at = put_header(out, at, total as u32, second as u32);
    let at = write::put(out, at, output);
    let at = write::put_u32(out, at, content.len() as u32);
    write::put(out, at, content)
}

impl<'a> CaseFile<'a> {
    // The place after a cell: its output and its data.
    fn cell_end(self, at: usize) -> Option<usize>
        ensures { result ≡ next_of (cell_at self.entry.bytes.now at) }
    {
        let second = self.item_end(Kind::Output, at)?;
        self.item_end(Kind::Data, second)
    }

    // The place after the record at a place. One that is not live has length 0.
    fn record_end(self, at: usize) -> Option<usize>
        ensures { result ≡ next_of (resolved_at self.entry.bytes.now at) }
    {
        if self.is_kind(Kind::NotLive, at) {
            self.sized_end(Kind::NotLive, 0, at)
        } else {
            self.cell_end(at)
        }
    }

    // Where the record stands that follows the one at a place; where there is none, at the end.
    fn next_place(self, at: usize) -> usize
        ensures { result ≡ next_at self.entry.bytes.now at }
    {
        self.record_end(at).unwrap_or(self.bytes.len())
    }

    // The data of the cell at a place, which stands behind its output.
    fn content(self, at: usize) -> &'a [u8]
        ensures value { result.now ≡ body_there self.entry.bytes.now (next_of (item_at self.entry.bytes.now 7 at)) }
        ensures upper_bound { length result.now ≤ 65536 }
    {
        match self.item_end(Kind::Output, at) {
            Some(second) => self.body(second),
            None => molecule::part(self.bytes, 0, 0),
        }
    }

    // How many bytes the record at a place has in the list.
    fn entry_len(self, at: usize) -> usize
        ensures value { result ≡ length (entry_at self.entry.bytes.now at) }
        ensures upper_bound { result ≤ 131088 }
    {
        if self.is_kind(Kind::NotLive, at) {
            return 0;
        }
        16 + self.body(at).len() + self.content(at).len()
    }

    // Measures the records from a place up to the end of the file, if they are in their shape. Each takes up at most 5 bytes in the list for 2 in the file.
    pub(crate) fn measure(self, from: usize) -> Option<Measured>
        requires { (0 < from) × (from ≤ length self.bytes.now) }
        ensures value { result ≡ measured (records_from (length self.entry.bytes.now) self.entry.bytes.now from) }
        ensures size_bound { IfSome result (λ m. m.size ≤ 163844) }
    {
        let mut at = from;
        let mut count = 0;
        let mut size = 4;
        // a while: each record says where the next one stands
        while at < self.bytes.len() {
            let next = self.record_end(at)?;
            size += 4 + self.entry_len(at);
            count += 1;
            at = next;
        }
        Some(Measured { count, size })
    }

    // Puts the record at a place of the file.
    fn put_entry(self, out: &mut [u8], to: usize, at: usize) -> usize
        requires { to + length (entry_at self.bytes.now at) ≤ length out.old }
        ensures { Put out.old to (entry_at self.entry.bytes.now at) out.new result }
    {
        if self.is_kind(Kind::NotLive, at) {
            return to;
        }
        put_cell(out, to, self.body(at), self.content(at))
    }

    // Puts the offsets of n records, the first of which starts at `first` in the list.
    fn put_offsets(self, out: &mut [u8], to: usize, from: usize, n: usize, first: usize) -> usize
        requires { (to + 4 * n ≤ length out.old) × (first + length (flatten (walk n self.bytes.now from)) < 2 ^ 32) }
        ensures { Put out.old to (unwords (offsets first (walk n self.entry.bytes.now from))) out.new result }
    {
        let mut end = to;
        let mut at = from;
        let mut offset = first;
        for _i in 0..n {
            end = write::put_u32(out, end, offset as u32);
            offset += self.entry_len(at);
            at = self.next_place(at);
        }
        end
    }

    // Puts n records one after the other.
    fn put_entries(self, out: &mut [u8], to: usize, from: usize, n: usize) -> usize
        requires { to + length (flatten (walk n self.bytes.now from)) ≤ length out.old }
        ensures { Put out.old to (flatten (walk n self.entry.bytes.now from)) out.new result }
    {
        let mut end = to;
        let mut at = from;
        for _i in 0..n {
            end = self.put_entry(out, end, at);
            at = self.next_place(at);
        }
        end
    }

    // Puts the list of the records from a place on at the start of out.
    pub(crate) fn put_list(self, out: &mut [u8], from: usize, list: Measured) -> usize
        requires { (list.size ≡ length (join (walk list.count self.bytes.now from))) × (4 * list.count + 4 ≤ list.size) × (list.size ≤ length out.old)
            × (list.size < 2 ^ 32) }
        ensures { Put out.old 0 (join (walk list.count self.entry.bytes.now from)) out.new result }
    {
        let Measured { count, size } = list;
        let at = write::put_u32(out, 0, size as u32);
        let at = self.put_offsets(out, at, from, count, 4 * count + 4);
        self.put_entries(out, at, from, count)
    }
}
