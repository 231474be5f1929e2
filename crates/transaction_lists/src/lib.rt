// What stands in a transaction, with its lists by number, for a caller that has no part of the bytes in hand. Each call reads once whether the bytes are a
// transaction.
#![tactic(auto, using(crate::proofs::Ways::ways))]

ghost use Rattle.std.specs.Prelude.{◌≡◌, true, length};
ghost use Rattle.molecule.specs.Layout.{inside};
ghost use Rattle.molecule.specs.Molecule.{readable};
ghost use Rattle.transaction.specs.Ckb.{Transaction};
ghost use Rattle.error.specs.Outcome.{told};
ghost use Rattle.transaction_lists.specs.Kinds.{list_number, Decodes};
ghost use Rattle.transaction_lists.specs.Lists.{list_in, item_in, place_in_bytes};
ghost use Rattle.transaction_lists.specs.Found.{version_found, count_found};

use error::Refusal;
use reader::lists as reading;

// One of a transaction's lists.
#[derive(Clone, Copy, Debug, PartialEq, Eq, Hash)]
pub enum ListKind {
    CellDeps,
    HeaderDeps,
    Inputs,
    Outputs,
    OutputsData,
    Witnesses,
}

// The list with a number. Refused: a list that there is not (3).
impl TryFrom<u32> for ListKind {
    type Error = Refusal;

    ghost try_from_gives = { Decodes };

    fn try_from(list: u32) -> Result<Self, Refusal> {
        match list {
            0 => Ok(ListKind::CellDeps),
            1 => Ok(ListKind::HeaderDeps),
            2 => Ok(ListKind::Inputs),
            3 => Ok(ListKind::Outputs),
            4 => Ok(ListKind::OutputsData),
            5 => Ok(ListKind::Witnesses),
            _ => Err(Refusal::LentBytesUnreadable),
        }
    }
}

// The version. Refused: bytes that are no transaction (1).
pub fn version(tx: &[u8]) -> Result<u32, Refusal>
    ensures { told result ≡ version_found tx.now }
{
    if !transaction::is_transaction(tx) {
        return Err(Refusal::OurTransactionUnreadable);
    }
    Ok(reading::version(tx))
}

// How many items a list of a transaction has.
fn count(tx: &[u8], list: ListKind) -> u32
    requires { readable Transaction tx.now ≡ true }
    ensures { result ≡ length (list_in tx.now (list_number list)) }
{
    match list {
        ListKind::CellDeps => reading::cell_dep_count(tx),
        ListKind::HeaderDeps => reading::header_dep_count(tx),
        ListKind::Inputs => reading::input_count(tx),
        ListKind::Outputs => reading::output_count(tx),
        ListKind::OutputsData => reading::output_data_count(tx),
        ListKind::Witnesses => reading::witness_count(tx),
    }
}

// How many items a list has. Refused: bytes that are no transaction (1), a list that there is not (3).
pub fn item_count(tx: &[u8], list: u32) -> Result<u32, Refusal>
    ensures { told result ≡ count_found tx.now list }
{
    if !transaction::is_transaction(tx) {
        return Err(Refusal::OurTransactionUnreadable);
    }
    let kind = ListKind::try_from(list)?;
    Ok(count(tx, kind))
}

// The item at a place, and no bytes past the last, as its stretch of the lent bytes.
pub fn item(tx: &[u8], list: u32, i: usize) -> &[u8]
    ensures result_value { result.now ≡ item_in tx.now list i }
    ensures ref_ptr_value { result.ref_ptr ≡ inside tx.entry.ref_ptr (place_in_bytes tx.now list i) }
{
    if !transaction::is_transaction(tx) {
        return molecule::part(tx, 0, 0);
    }
    let Ok(kind) = ListKind::try_from(list) else {
        return molecule::part(tx, 0, 0);
    };
    let n = count(tx, kind) as usize;
    if n <= i {
        return molecule::part(tx, 0, 0);
    }
    match kind {
        ListKind::CellDeps => reading::cell_dep(tx, i),
        ListKind::HeaderDeps => reading::header_dep(tx, i),
        ListKind::Inputs => reading::input(tx, i),
        ListKind::Outputs => reading::output(tx, i),
        ListKind::OutputsData => reading::output_data(tx, i),
        ListKind::Witnesses => reading::witness(tx, i),
    }
}
