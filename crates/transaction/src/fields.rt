// What stands in a transaction and its parts. Each accessor is total: of bytes that are in no form it answers 0 or a part of them. A part that is
// handed back is a stretch of the lent bytes: the first clause says which bytes, the second where in the lent slice they start.
#![tactic(auto, using(crate::proofs::Ways::ways))]

ghost use Rattle.std.specs.Prelude.{◌≡◌, ◌+◌, ◌^◌, ◌<◌, get_or};
ghost use Rattle.arithmetic.specs.LittleEndian.{u32_at, u64_at};
ghost use Rattle.units.specs.Units.{in_shannons, shannon_count};
ghost use Rattle.molecule.specs.Layout.{part, part_start, inside, field_of, field_start, item_count, item_of, item_start, fix_count, fix_item, fix_start};
ghost use Rattle.molecule.specs.Layout.{content_start, entry_of, entry_start};
ghost use Rattle.transaction.specs.Tx.{raw_field, raw_start, witnesses_of, tx_at, args_of, capacity_of, lock_of, type_of, previous_output_of, first_of};
ghost use Rattle.transaction.specs.Tx.{data_of};

use arithmetic::little_endian;
use units::Shannons;

// ---- a transaction

// The raw transaction: all but the witnesses.
pub fn raw(tx: &[u8]) -> &[u8]
    ensures result_value { result.now ≡ field_of tx.now 2 0 }
    ensures ref_ptr_value { result.ref_ptr ≡ inside tx.entry.ref_ptr (field_start tx.now 2 0) }
{
    molecule::field(tx, 2, 0)
}

// Field i of the raw transaction.
fn raw_field(tx: &[u8], i: usize) -> &[u8]
    ensures result_value { result.now ≡ raw_field tx.now i }
    ensures ref_ptr_value { result.ref_ptr ≡ inside tx.entry.ref_ptr (raw_start tx.now i) }
{
    let raw = raw(tx);
    molecule::field(raw, 6, i)
}

// The version.
pub fn version(tx: &[u8]) -> u32
    ensures { result ≡ (tx_at tx.now).version }
{
    let f = raw_field(tx, 0);
    little_endian::u32_at(f, 0)
}

// The list of the cell deps.
pub fn cell_deps(tx: &[u8]) -> &[u8]
    ensures result_value { result.now ≡ raw_field tx.now 1 }
    ensures ref_ptr_value { result.ref_ptr ≡ inside tx.entry.ref_ptr (raw_start tx.now 1) }
{
    raw_field(tx, 1)
}

// The list of the header deps.
pub fn header_deps(tx: &[u8]) -> &[u8]
    ensures result_value { result.now ≡ raw_field tx.now 2 }
    ensures ref_ptr_value { result.ref_ptr ≡ inside tx.entry.ref_ptr (raw_start tx.now 2) }
{
    raw_field(tx, 2)
}

// The list of the inputs.
pub fn inputs(tx: &[u8]) -> &[u8]
    ensures result_value { result.now ≡ raw_field tx.now 3 }
    ensures ref_ptr_value { result.ref_ptr ≡ inside tx.entry.ref_ptr (raw_start tx.now 3) }
{
    raw_field(tx, 3)
}

// The list of the outputs.
pub fn outputs(tx: &[u8]) -> &[u8]
    ensures result_value { result.now ≡ raw_field tx.now 4 }
    ensures ref_ptr_value { result.ref_ptr ≡ inside tx.entry.ref_ptr (raw_start tx.now 4) }
{
    raw_field(tx, 4)
}

// The list of the outputs' data.
pub fn outputs_data(tx: &[u8]) -> &[u8]
    ensures result_value { result.now ≡ raw_field tx.now 5 }
    ensures ref_ptr_value { result.ref_ptr ≡ inside tx.entry.ref_ptr (raw_start tx.now 5) }
{
    raw_field(tx, 5)
}

// The list of the witnesses.
pub fn witnesses(tx: &[u8]) -> &[u8]
    ensures result_value { result.now ≡ witnesses_of tx.now }
    ensures ref_ptr_value { result.ref_ptr ≡ inside tx.entry.ref_ptr (field_start tx.now 2 1) }
{
    molecule::field(tx, 2, 1)
}

// ---- how many, and one by its place

// How many cell deps there are.
pub fn cell_dep_count(tx: &[u8]) -> u32
    ensures { result ≡ fix_count (raw_field tx.now 1) }
{
    let f = raw_field(tx, 1);
    molecule::fix_count(f)
}

// One of the cell deps.
pub fn cell_dep(tx: &[u8], i: usize) -> &[u8]
    ensures result_value { result.now ≡ fix_item (raw_field tx.now 1) 37 i }
    ensures ref_ptr_value { result.ref_ptr ≡ inside tx.entry.ref_ptr (raw_start tx.now 1 + fix_start (raw_field tx.now 1) 37 i) }
{
    let f = raw_field(tx, 1);
    molecule::fix_item(f, 37, i)
}

// How many header deps there are.
pub fn header_dep_count(tx: &[u8]) -> u32
    ensures { result ≡ fix_count (raw_field tx.now 2) }
{
    let f = raw_field(tx, 2);
    molecule::fix_count(f)
}

// One of the header deps.
pub fn header_dep(tx: &[u8], i: usize) -> &[u8]
    ensures result_value { result.now ≡ fix_item (raw_field tx.now 2) 32 i }
    ensures ref_ptr_value { result.ref_ptr ≡ inside tx.entry.ref_ptr (raw_start tx.now 2 + fix_start (raw_field tx.now 2) 32 i) }
{
    let f = raw_field(tx, 2);
    molecule::fix_item(f, 32, i)
}

// How many inputs there are.
pub fn input_count(tx: &[u8]) -> u32
    ensures { result ≡ fix_count (raw_field tx.now 3) }
{
    let f = raw_field(tx, 3);
    molecule::fix_count(f)
}

// One of the inputs.
pub fn input(tx: &[u8], i: usize) -> &[u8]
    ensures result_value { result.now ≡ fix_item (raw_field tx.now 3) 44 i }
    ensures ref_ptr_value { result.ref_ptr ≡ inside tx.entry.ref_ptr (raw_start tx.now 3 + fix_start (raw_field tx.now 3) 44 i) }
{
    let f = raw_field(tx, 3);
    molecule::fix_item(f, 44, i)
}

// How many outputs there are.
pub fn output_count(tx: &[u8]) -> u32
    ensures { result ≡ item_count (raw_field tx.now 4) }
{
    let f = raw_field(tx, 4);
    molecule::item_count(f)
}

// One of the outputs.
pub fn output(tx: &[u8], i: usize) -> &[u8]
    ensures result_value { result.now ≡ item_of (raw_field tx.now 4) i }
    ensures ref_ptr_value { result.ref_ptr ≡ inside tx.entry.ref_ptr (raw_start tx.now 4 + item_start (raw_field tx.now 4) i) }
{
    let f = raw_field(tx, 4);
    molecule::item(f, i)
}

// How many data entries there are.
pub fn output_data_count(tx: &[u8]) -> u32
    ensures { result ≡ item_count (raw_field tx.now 5) }
{
    let f = raw_field(tx, 5);
    molecule::item_count(f)
}

// The data of an output; a missing entry is empty.
pub fn output_data(tx: &[u8], i: usize) -> &[u8]
    ensures result_value { result.now ≡ entry_of (raw_field tx.now 5) i }
    ensures ref_ptr_value { result.ref_ptr ≡ inside tx.entry.ref_ptr (raw_start tx.now 5 + entry_start (raw_field tx.now 5) i) }
{
    let f = raw_field(tx, 5);
    molecule::entry(f, i)
}

// How many witnesses there are.
pub fn witness_count(tx: &[u8]) -> u32
    ensures { result ≡ item_count (witnesses_of tx.now) }
{
    let f = witnesses(tx);
    molecule::item_count(f)
}

// One of the witnesses.
pub fn witness(tx: &[u8], i: usize) -> &[u8]
    ensures result_value { result.now ≡ entry_of (witnesses_of tx.now) i }
    ensures ref_ptr_value { result.ref_ptr ≡ inside tx.entry.ref_ptr (field_start tx.now 2 1 + entry_start (witnesses_of tx.now) i) }
{
    let f = witnesses(tx);
    molecule::entry(f, i)
}

// ---- a script

// The code hash, 32 bytes.
pub fn code_hash(script: &[u8]) -> &[u8]
    ensures result_value { result.now ≡ field_of script.now 3 0 }
    ensures ref_ptr_value { result.ref_ptr ≡ inside script.entry.ref_ptr (field_start script.now 3 0) }
{
    molecule::field(script, 3, 0)
}

// The hash type.
pub fn hash_type(script: &[u8]) -> u8
    ensures { result ≡ get_or (field_of script.now 3 1) 0 0 }
{
    let f = molecule::field(script, 3, 1);
    little_endian::byte(f, 0)
}

// The args.
pub fn args(script: &[u8]) -> &[u8]
    ensures result_value { result.now ≡ args_of script.now }
    ensures ref_ptr_value { result.ref_ptr ≡ inside script.entry.ref_ptr (field_start script.now 3 2 + content_start (field_of script.now 3 2)) }
{
    let f = molecule::field(script, 3, 2);
    molecule::content(f)
}

// ---- an output

// The capacity, a number of 64 bits.
pub fn capacity(output: &[u8]) -> Shannons
    ensures value { result ≡ in_shannons (capacity_of output.now) }
    ensures result_bound { shannon_count result < 2 ^ 64 }
{
    let f = molecule::field(output, 3, 0);
    Shannons(u128::from(little_endian::u64_at(f, 0)))
}

// The lock.
pub fn lock(output: &[u8]) -> &[u8]
    ensures result_value { result.now ≡ lock_of output.now }
    ensures ref_ptr_value { result.ref_ptr ≡ inside output.entry.ref_ptr (field_start output.now 3 1) }
{
    molecule::field(output, 3, 1)
}

// The type, empty where there is none.
pub fn type_script(output: &[u8]) -> &[u8]
    ensures result_value { result.now ≡ type_of output.now }
    ensures ref_ptr_value { result.ref_ptr ≡ inside output.entry.ref_ptr (field_start output.now 3 2) }
{
    molecule::field(output, 3, 2)
}

// ---- an input, an out point, a cell dep

// The since of an input: its first 8 bytes.
pub fn since(input: &[u8]) -> u64
    ensures { result ≡ u64_at input.now 0 }
{
    little_endian::u64_at(input, 0)
}

// The out point that an input spends: the 36 bytes after the since.
pub fn previous_output(input: &[u8]) -> &[u8]
    ensures result_value { result.now ≡ previous_output_of input.now }
    ensures ref_ptr_value { result.ref_ptr ≡ inside input.entry.ref_ptr (part_start input.now 8 44) }
{
    molecule::part(input, 8, 44)
}

// The transaction hash of an out point: its first 32 bytes.
pub fn tx_hash(point: &[u8]) -> &[u8]
    ensures result_value { result.now ≡ part point.now 0 32 }
    ensures ref_ptr_value { result.ref_ptr ≡ inside point.entry.ref_ptr (part_start point.now 0 32) }
{
    molecule::part(point, 0, 32)
}

// The output number of an out point: its last 4 bytes.
pub fn index(point: &[u8]) -> u32
    ensures { result ≡ u32_at point.now 32 }
{
    little_endian::u32_at(point, 32)
}

// The out point of a cell dep: its first 36 bytes.
pub fn out_point(dep: &[u8]) -> &[u8]
    ensures result_value { result.now ≡ part dep.now 0 36 }
    ensures ref_ptr_value { result.ref_ptr ≡ inside dep.entry.ref_ptr (part_start dep.now 0 36) }
{
    molecule::part(dep, 0, 36)
}

// The dep type of a cell dep: its last byte.
pub fn dep_type(dep: &[u8]) -> u8
    ensures { result ≡ get_or dep.now 36 0 }
{
    little_endian::byte(dep, 36)
}

// ---- a record: output and data; a token cell: out point and data

// The output of a record.
pub fn record_output(resolved: &[u8]) -> &[u8]
    ensures result_value { result.now ≡ first_of resolved.now }
    ensures ref_ptr_value { result.ref_ptr ≡ inside resolved.entry.ref_ptr (field_start resolved.now 2 0) }
{
    molecule::field(resolved, 2, 0)
}

// The data of a record.
pub fn record_data(resolved: &[u8]) -> &[u8]
    ensures result_value { result.now ≡ data_of resolved.now }
    ensures ref_ptr_value { result.ref_ptr ≡ inside resolved.entry.ref_ptr (field_start resolved.now 2 1 + content_start (field_of resolved.now 2 1)) }
{
    let f = molecule::field(resolved, 2, 1);
    molecule::content(f)
}

// The out point of a token cell.
pub fn token_cell_out_point(cell: &[u8]) -> &[u8]
    ensures result_value { result.now ≡ first_of cell.now }
    ensures ref_ptr_value { result.ref_ptr ≡ inside cell.entry.ref_ptr (field_start cell.now 2 0) }
{
    molecule::field(cell, 2, 0)
}

// The data of a token cell.
pub fn token_cell_data(cell: &[u8]) -> &[u8]
    ensures result_value { result.now ≡ data_of cell.now }
    ensures ref_ptr_value { result.ref_ptr ≡ inside cell.entry.ref_ptr (field_start cell.now 2 1 + content_start (field_of cell.now 2 1)) }
{
    let f = molecule::field(cell, 2, 1);
    molecule::content(f)
}
