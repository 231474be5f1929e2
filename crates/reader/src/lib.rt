// A reader holds a transaction's bytes and a field's start. It is moved from a table to one of its fields, and what it hands back is a stretch of the bytes
// lent.
#![tactic(auto, using(crate::proofs::Ways::ways), unfolding(crate::specs::Places::table_at, crate::specs::Places::table_start, crate::specs::Places::fixvec_at, crate::specs::Places::fixvec_start, crate::specs::Places::field_at))]

pub mod lists;
pub mod places;

ghost use Rattle.std.specs.Prelude.{◌≡◌, ◌+◌};
ghost use Rattle.arithmetic.specs.LittleEndian.{u32_at};
ghost use Rattle.molecule.specs.Layout.{inside, item_count, item_of, item_start, fix_item, fix_start, entry_of, entry_start};
ghost use Rattle.reader.specs.Places.{table_at, table_start, fixvec_at, fixvec_start};
ghost use Rattle.reader.specs.Readers.{start_of, at_field};

// The lent bytes, all of them, and a place in them.
#[derive(Clone, Copy, Debug, PartialEq, Eq)]
pub struct Reader<'a> {
    src: &'a [u8],
    at: usize,
}

impl<'a> Reader<'a> {
    // A reader at the start of the bytes.
    pub fn new(src: &'a [u8]) -> Reader<'a>
        ensures { result ≡ start_of src.entry }
    {
        Reader { src, at: 0 }
    }

    // The reader moved to field i of the table where it stands.
    pub fn field(self, i: u32) -> Reader<'a>
        ensures { result ≡ at_field self.entry i }
    {
        Reader {
            src: self.src,
            at: places::field(self.src, self.at, i),
        }
    }

    // The number of four bytes where it stands: a version, or how many items a fixvec says that it has. It reads bytes, so it is no conversion of a reader.
    pub fn number(self) -> u32
        ensures { result ≡ u32_at self.entry.src.now self.entry.at }
    {
        places::number(self.src, self.at)
    }

    // The table or dynvec where it stands.
    pub fn bytes(self) -> &'a [u8]
        ensures { (result.now ≡ table_at self.entry.src.now self.entry.at)
            × (result.ref_ptr ≡ inside self.entry.src.ref_ptr (table_start self.entry.src.now self.entry.at)) }
    {
        places::bytes(self.src, self.at)
    }

    // How many items the dynvec where it stands says that it has.
    pub fn item_count(self) -> u32
        ensures { result ≡ item_count (table_at self.entry.src.now self.entry.at) }
    {
        places::item_count(self.src, self.at)
    }

    // Item i of the dynvec where it stands.
    pub fn item(self, i: usize) -> &'a [u8]
        ensures { (result.now ≡ item_of (table_at self.entry.src.now self.entry.at) i)
            × (result.ref_ptr ≡ inside self.entry.src.ref_ptr (table_start self.entry.src.now self.entry.at + item_start
            (table_at self.entry.src.now self.entry.at) i)) }
    {
        places::item(self.src, self.at, i)
    }

    // The bytes of item i of the dynvec of fixvecs of bytes where it stands.
    pub fn entry(self, i: usize) -> &'a [u8]
        ensures { (result.now ≡ entry_of (table_at self.entry.src.now self.entry.at) i)
            × (result.ref_ptr ≡ inside self.entry.src.ref_ptr (table_start self.entry.src.now self.entry.at + entry_start
            (table_at self.entry.src.now self.entry.at) i)) }
    {
        places::entry(self.src, self.at, i)
    }

    // Item i of the fixvec of items of k bytes where it stands.
    pub fn fix_item(self, k: u32, i: usize) -> &'a [u8]
        ensures { (result.now ≡ fix_item (fixvec_at self.entry.src.now self.entry.at k) k i)
            × (result.ref_ptr ≡ inside self.entry.src.ref_ptr (fixvec_start self.entry.src.now self.entry.at k + fix_start
            (fixvec_at self.entry.src.now self.entry.at k) k i)) }
    {
        places::fix_item(self.src, self.at, k, i)
    }
}
