// Where the items of a list of a transaction stand, all of them after one reading, so that a caller goes through the list in its own bytes.
#![tactic(auto, using(crate::proofs::Ways::ways), unfolding(molecule::specs::Layout::field_of, molecule::specs::Layout::field_start, molecule::specs::Layout::fix_item, molecule::specs::Layout::fix_start, molecule::specs::Layout::item_of, molecule::specs::Layout::item_start, molecule::specs::Layout::entry_of, molecule::specs::Layout::entry_start, molecule::specs::Layout::content, molecule::specs::Layout::content_start, transaction::specs::Tx::raw_field, transaction::specs::Tx::raw_start, transaction::specs::Tx::witnesses_of))]

ghost use Rattle.std.specs.Prelude.{◌≡◌, ◌+◌, ◌*◌, ◌^◌, ◌≤◌, ◌<◌, min, length};
ghost use mathlib.Core.List.{flatten};
ghost use Rattle.molecule.specs.Write.{splice};
ghost use Rattle.transaction_lists.specs.Kinds.{list_number};
ghost use Rattle.transaction_lists.specs.Lists.{list_in};
ghost use Rattle.error.specs.Outcome.{told};
ghost use Rattle.item_places.specs.Places.{onward, places_of, places_found, listed};
ghost use Rattle.item_places.specs.Places.{PartAt, FieldAt, FixAt, ItemAt, EntryAt, RawAt, AnItemIn};

use error::Refusal;
use transaction::fields;
use transaction_lists::ListKind;

// Where an item starts, and how many bytes it has.
#[derive(Clone, Copy, Debug, PartialEq, Eq, Hash)]
struct Place {
    start: usize,
    len: usize,
}

// ---- a part of a string

// Where the bytes from `from` up to `to` of n start, which is nowhere past the end.
fn part_start(n: usize, from: usize, to: usize) -> usize
    ensures { result ≡ min from (min to n) }
{
    from.min(to.min(n))
}

// The place of a part, by its ends.
fn part_place(s: &[u8], from: usize, to: usize) -> Place
    ensures { PartAt s.now from to result }
{
    let start = part_start(s.len(), from, to);
    let len = molecule::part(s, from, to).len();
    Place { start, len }
}

// The place of a part of a part.
fn on(outer: Place, inner: Place) -> Place
    requires { outer.start + inner.start < 2 ^ 64 }
    ensures { result ≡ onward outer inner }
{
    Place {
        start: outer.start + inner.start,
        len: inner.len,
    }
}

// Item i of n. This and the next three take what the functions of `molecule` take that answer the parts themselves: a struct of these would be made for one
// call.
fn field_place(s: &[u8], n: usize, i: u32) -> Place
    ensures { FieldAt s.now n i result }
{
    let at = i as usize;
    let b = molecule::start(s, n, at + 1);
    let a = molecule::start(s, n, at);
    part_place(s, a, b)
}

// ---- an item of a list

// Item i of a fixvec of items of k bytes.
fn fix_place(s: &[u8], k: u32, i: u32) -> Place
    ensures { FixAt s.now k i result }
{
    let n = molecule::word(s, 0);
    if n <= i {
        return Place { start: 0, len: 0 };
    }
    let w = k as usize;
    let a = 4 + w * (i as usize);
    part_place(s, a, a + w)
}

// Item i of a dynvec.
fn item_place(s: &[u8], i: u32) -> Place
    ensures { ItemAt s.now i result }
{
    let n = molecule::item_count(s) as usize;
    field_place(s, n, i)
}

// The bytes of item i of a dynvec of fixvecs of bytes.
fn entry_place(s: &[u8], i: u32) -> Place
    ensures { EntryAt s.now i result }
{
    let outer = item_place(s, i);
    let item = molecule::item(s, i as usize);
    let inner = part_place(item, 4, item.len());
    on(outer, inner)
}

// ---- an item of a transaction

// Field j of the raw transaction.
fn raw_place(tx: &[u8], j: u32) -> Place
    ensures { RawAt tx.now j result }
{
    let outer = field_place(tx, 2, 0);
    let inner = field_place(fields::raw(tx), 6, j);
    on(outer, inner)
}

// One of the lists of a transaction, and how many items it has.
#[derive(Clone, Copy, Debug, PartialEq, Eq)]
struct TxList<'a> {
    tx: &'a [u8],
    kind: ListKind,
    count: u32,
    ghost counted: { count ≡ length (list_in tx.now (list_number kind)) },
}

impl TxList<'_> {
    // Item i.
    fn place(self, i: u32) -> Place
        requires { i < self.count }
        ensures { AnItemIn self.entry.tx.now (list_number self.entry.kind) i result }
    {
        let tx = self.tx;
        match self.kind {
            ListKind::CellDeps => on(raw_place(tx, 1), fix_place(fields::cell_deps(tx), 37, i)),
            ListKind::HeaderDeps => on(raw_place(tx, 2), fix_place(fields::header_deps(tx), 32, i)),
            ListKind::Inputs => on(raw_place(tx, 3), fix_place(fields::inputs(tx), 44, i)),
            ListKind::Outputs => on(raw_place(tx, 4), item_place(fields::outputs(tx), i)),
            ListKind::OutputsData => on(raw_place(tx, 5), entry_place(fields::outputs_data(tx), i)),
            ListKind::Witnesses => on(field_place(tx, 2, 1), entry_place(fields::witnesses(tx), i)),
        }
    }

    // Sets two words for each item, from the first word on.
    fn put_places(self, places: &mut [u64])
        requires { 2 * self.count ≤ length places.old }
        ensures { places.new ≡ splice places.old 0 (flatten (places_of self.entry.tx.now (list_number self.entry.kind) self.entry.count)) }
    {
        for i in 0..self.count {
            let p = self.place(i);
            let at = 2 * (i as usize);
            places[at] = p.start as u64;
            places[at + 1] = p.len as u64;
        }
    }
}

// Where each item of a list of a transaction starts and how many bytes it has, two words for each from the first of `places` on, and how many items there are.
// Refused, and `places` as it was: bytes that are no transaction (1), a list that there is not (3), fewer than two words for each item (13).
pub fn items(tx: &[u8], list: u32, places: &mut [u64]) -> Result<u32, Refusal>
    ensures { (told result, places.new) ≡ listed (places_found tx.now list (length places.old)) places.old }
{
    let count = transaction_lists::item_count(tx, list)?;
    let kind = ListKind::try_from(list)?;
    if places.len() / 2 < count as usize {
        return Err(Refusal::BufferTooShort);
    }
    TxList { tx, kind, count }.put_places(places);
    Ok(count)
}
