// CKB transactions (RFC 0019): which strings are transactions, scripts, outputs and lent lists, and what stands in them.
#![tactic(auto, using(crate::proofs::Tests::tests))]

mod entities;
pub mod fields;

ghost use Rattle.std.specs.Prelude.{◌≡◌};
ghost use Rattle.molecule.specs.Molecule.{readable, option, fixvec, dynvec};
ghost use Rattle.transaction.specs.Tx.{are_scripts};
ghost use Rattle.transaction.specs.Ckb.{Byte32, OutPoints, CellDeps, CellInput, Script, CellOutput, RawTransaction, Transaction, TokenCell, TokenCells, Record};
ghost use Rattle.transaction.specs.Ckb.{Records};

use molecule::{Bytes, BytesVec, Entity};

// Whether s is a script: code hash, hash type, args. The sizes of the first two say what stands in the header, and one test of the length comes before its
// words are read.
pub fn is_script(s: &[u8]) -> bool
    ensures { result ≡ readable Script s.now }
{
    s.len() >= 53
        && molecule::word(s, 0) as usize == s.len()
        && molecule::word(s, 1) == 16
        && molecule::word(s, 2) == 48
        && molecule::word(s, 3) == 49
        && molecule::is_bytes(molecule::part(s, 49, s.len()))
}

// Whether s is a script or nothing.
pub fn is_optional_script(s: &[u8]) -> bool
    ensures { result ≡ readable (option Script) s.now }
{
    Option::<entities::Script>::is(s)
}

// Whether the expected funding lock and type (empty for none) and our source lock are scripts. As an `Answer` the one test would be no shorter, and a struct of
// the three, which the C interface lends apart, would be made for this call alone.
pub fn are_scripts(lock: &[u8], udt: &[u8], source: &[u8]) -> bool
    ensures { result ≡ are_scripts lock.now udt.now source.now }
{
    is_script(lock) && is_optional_script(udt) && is_script(source)
}

// Whether s is an output: capacity, lock, and type or nothing. Its header is tested like a script's.
pub fn is_output(s: &[u8]) -> bool
    ensures { result ≡ readable CellOutput s.now }
{
    if s.len() < 24 {
        return false;
    }
    let e = molecule::word(s, 3) as usize;
    molecule::word(s, 0) as usize == s.len()
        && molecule::word(s, 1) == 16
        && molecule::word(s, 2) == 24
        && e <= s.len()
        && is_script(molecule::part(s, 24, e))
        && is_optional_script(molecule::part(s, e, s.len()))
}

// Whether s is a list of out points.
pub fn is_out_points(s: &[u8]) -> bool
    ensures { result ≡ readable OutPoints s.now }
{
    molecule::is_fixvec(s, 36)
}

// Whether s is a list of cell deps.
pub fn is_cell_deps(s: &[u8]) -> bool
    ensures { result ≡ readable CellDeps s.now }
{
    molecule::is_fixvec(s, 37)
}

// Whether s is a list of header deps.
pub fn is_header_deps(s: &[u8]) -> bool
    ensures { result ≡ readable (fixvec Byte32) s.now }
{
    molecule::is_fixvec(s, 32)
}

// Whether s is a list of inputs.
pub fn is_inputs(s: &[u8]) -> bool
    ensures { result ≡ readable (fixvec CellInput) s.now }
{
    molecule::is_fixvec(s, 44)
}

// Whether s is a list of outputs.
pub fn is_outputs(s: &[u8]) -> bool
    ensures { result ≡ readable (dynvec CellOutput) s.now }
{
    molecule::is_dynvec_of::<entities::CellOutput>(s)
}

// Whether s is a raw transaction.
pub fn is_raw_transaction(s: &[u8]) -> bool
    ensures { result ≡ readable RawTransaction s.now }
{
    molecule::has_items(s, 6)
        && molecule::field_len(s, 6, 0) == 4
        && is_cell_deps(molecule::field(s, 6, 1))
        && is_header_deps(molecule::field(s, 6, 2))
        && is_inputs(molecule::field(s, 6, 3))
        && is_outputs(molecule::field(s, 6, 4))
        && molecule::is_bytes_vec(molecule::field(s, 6, 5))
}

// Whether s is a transaction.
pub fn is_transaction(s: &[u8]) -> bool
    ensures { result ≡ readable Transaction s.now }
{
    molecule::is_pair_of::<entities::RawTransaction, BytesVec>(s)
}

// Whether s is a transaction or nothing.
pub fn is_optional_transaction(s: &[u8]) -> bool
    ensures { result ≡ readable (option Transaction) s.now }
{
    Option::<entities::Transaction>::is(s)
}

// Whether s is a token cell: out point and data.
pub fn is_token_cell(s: &[u8]) -> bool
    ensures { result ≡ readable TokenCell s.now }
{
    molecule::is_pair_of::<entities::OutPoint, Bytes>(s)
}

// Whether s is a list of token cells.
pub fn is_token_cells(s: &[u8]) -> bool
    ensures { result ≡ readable TokenCells s.now }
{
    molecule::is_dynvec_of::<entities::TokenCell>(s)
}

// Whether s is a resolved cell: output and data.
pub fn is_record(s: &[u8]) -> bool
    ensures { result ≡ readable Record s.now }
{
    molecule::is_pair_of::<entities::CellOutput, Bytes>(s)
}

// Whether s is a resolved cell, or nothing, for a cell that is not live.
pub fn is_optional_record(s: &[u8]) -> bool
    ensures { result ≡ readable (option Record) s.now }
{
    Option::<entities::Record>::is(s)
}

// Whether s is a list of these.
pub fn is_records(s: &[u8]) -> bool
    ensures { result ≡ readable Records s.now }
{
    molecule::is_dynvec_of::<Option<entities::Record>>(s)
}
