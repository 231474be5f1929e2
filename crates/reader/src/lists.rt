// The version and the lists of a transaction, through a reader on its bytes. Of bytes that are no transaction each function answers 0 or a part of them; of a
// transaction, what the accessors of `transaction::fields` answer.
ghost use Rattle.std.specs.Prelude.{◌≡◌, ◌+◌};
ghost use Rattle.arithmetic.specs.LittleEndian.{u32_at};
ghost use Rattle.molecule.specs.Layout.{inside, item_count, item_of, item_start, fix_item, fix_start, entry_of, entry_start};
ghost use Rattle.reader.specs.Places.{table_at, table_start, fixvec_at, fixvec_start, raw_at, witnesses_at};

use crate::Reader;

// The version.
pub fn version(tx: &[u8]) -> u32
    ensures { result ≡ u32_at tx.now (raw_at tx.now 0) }
{
    Reader::new(tx).field(0).field(0).number()
}

// How many cell deps there are.
pub fn cell_dep_count(tx: &[u8]) -> u32
    ensures { result ≡ u32_at tx.now (raw_at tx.now 1) }
{
    Reader::new(tx).field(0).field(1).number()
}

// One of the cell deps.
pub fn cell_dep(tx: &[u8], i: usize) -> &[u8]
    ensures { (result.now ≡ fix_item (fixvec_at tx.now (raw_at tx.now 1) 37) 37 i)
        × (result.ref_ptr ≡ inside tx.entry.ref_ptr (fixvec_start tx.now (raw_at tx.now 1) 37 + fix_start (fixvec_at tx.now (raw_at tx.now 1) 37) 37 i)) }
{
    Reader::new(tx).field(0).field(1).fix_item(37, i)
}

// How many header deps there are.
pub fn header_dep_count(tx: &[u8]) -> u32
    ensures { result ≡ u32_at tx.now (raw_at tx.now 2) }
{
    Reader::new(tx).field(0).field(2).number()
}

// One of the header deps.
pub fn header_dep(tx: &[u8], i: usize) -> &[u8]
    ensures { (result.now ≡ fix_item (fixvec_at tx.now (raw_at tx.now 2) 32) 32 i)
        × (result.ref_ptr ≡ inside tx.entry.ref_ptr (fixvec_start tx.now (raw_at tx.now 2) 32 + fix_start (fixvec_at tx.now (raw_at tx.now 2) 32) 32 i)) }
{
    Reader::new(tx).field(0).field(2).fix_item(32, i)
}

// How many inputs there are.
pub fn input_count(tx: &[u8]) -> u32
    ensures { result ≡ u32_at tx.now (raw_at tx.now 3) }
{
    Reader::new(tx).field(0).field(3).number()
}

// One of the inputs.
pub fn input(tx: &[u8], i: usize) -> &[u8]
    ensures { (result.now ≡ fix_item (fixvec_at tx.now (raw_at tx.now 3) 44) 44 i)
        × (result.ref_ptr ≡ inside tx.entry.ref_ptr (fixvec_start tx.now (raw_at tx.now 3) 44 + fix_start (fixvec_at tx.now (raw_at tx.now 3) 44) 44 i)) }
{
    Reader::new(tx).field(0).field(3).fix_item(44, i)
}

// How many outputs there are.
pub fn output_count(tx: &[u8]) -> u32
    ensures { result ≡ item_count (table_at tx.now (raw_at tx.now 4)) }
{
    Reader::new(tx).field(0).field(4).item_count()
}

// One of the outputs.
pub fn output(tx: &[u8], i: usize) -> &[u8]
    ensures { (result.now ≡ item_of (table_at tx.now (raw_at tx.now 4)) i)
        × (result.ref_ptr ≡ inside tx.entry.ref_ptr (table_start tx.now (raw_at tx.now 4) + item_start (table_at tx.now (raw_at tx.now 4)) i)) }
{
    Reader::new(tx).field(0).field(4).item(i)
}

// How many data entries there are.
pub fn output_data_count(tx: &[u8]) -> u32
    ensures { result ≡ item_count (table_at tx.now (raw_at tx.now 5)) }
{
    Reader::new(tx).field(0).field(5).item_count()
}

// The data of an output; a missing entry is empty.
pub fn output_data(tx: &[u8], i: usize) -> &[u8]
    ensures { (result.now ≡ entry_of (table_at tx.now (raw_at tx.now 5)) i)
        × (result.ref_ptr ≡ inside tx.entry.ref_ptr (table_start tx.now (raw_at tx.now 5) + entry_start (table_at tx.now (raw_at tx.now 5)) i)) }
{
    Reader::new(tx).field(0).field(5).entry(i)
}

// How many witnesses there are.
pub fn witness_count(tx: &[u8]) -> u32
    ensures { result ≡ item_count (table_at tx.now (witnesses_at tx.now)) }
{
    Reader::new(tx).field(1).item_count()
}

// One of the witnesses.
pub fn witness(tx: &[u8], i: usize) -> &[u8]
    ensures { (result.now ≡ entry_of (table_at tx.now (witnesses_at tx.now)) i)
        × (result.ref_ptr ≡ inside tx.entry.ref_ptr (table_start tx.now (witnesses_at tx.now) + entry_start (table_at tx.now (witnesses_at tx.now)) i)) }
{
    Reader::new(tx).field(1).entry(i)
}
