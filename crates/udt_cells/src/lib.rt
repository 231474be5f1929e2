// The token cells that our side pays with: the pick among those that are lent, and the change that is left of them.
#![tactic(auto, using(crate::proofs::Ways::ways), unfolding(crate::proofs::Ways::picking))]

ghost use Rattle.std.specs.Prelude.{◌≡◌, true, ◌^◌, ◌<◌, min, length};
ghost use Rattle.units.specs.Units.{token_count};
ghost use Rattle.units.specs.Fee.{change_capacity};
ghost use Rattle.molecule.specs.Molecule.{readable, option};
ghost use Rattle.molecule.specs.Layout.{item_of, items_of};
ghost use Rattle.transaction.specs.Ckb.{Script};
ghost use Rattle.transaction.specs.Tx.{args_of};
ghost use Rattle.error.specs.Outcome.{check, told_by};
ghost use Rattle.udt_cells.specs.Pick.{pick_of, plus_cell, pick_from, pick_typed};
ghost use Rattle.udt_cells.specs.Change.{built_of, capacity_for, with_change, putting_made, lent, udt_inputs_outputs};

use error::Refusal;
use list_writer::MAX_BYTES;
use transaction::fields;
use units::{Figure, Shannons, Tokens};

// How many of the first cells are taken, and what is left of them over the wanted amount.
#[derive(Clone, Copy, Debug, Default, PartialEq, Eq, Hash)]
pub struct Picked {
    pub taken: usize,
    pub change: Tokens,
}

// The same with the capacity of the change output; change and capacity are 0 where there is no such output. They are not an `Option`: the C interface answers
// these two words, 0 for none.
#[derive(Clone, Copy, Debug, PartialEq, Eq, Hash)]
pub struct UdtInputsOutputs {
    pub taken: usize,
    pub change: Tokens,
    pub capacity: Shannons,
}

// ---- the pick

// A total with the amount of cell i.
#[tactic(auto, using(error::proofs::Outcomes::outcomes), unfolding(crate::proofs::PickLaws::adding))]
fn plus_cell(cells: &[u8], i: usize, total: Tokens) -> Result<Tokens, Refusal>
    ensures { told_by token_count result ≡ plus_cell (token_count total) (item_of cells.now i) }
{
    let cell = molecule::item(cells, i);
    let d = fields::token_cell_data(cell);
    let amount = Tokens::from_le_bytes(d).ok_or(Refusal::TokenCellDataTooShort)?;
    total.checked_add(amount).ok_or(Refusal::TokenTotalOverflow)
}

// Takes cells in list order until their total reaches what is wanted: none where that is 0. Later cells are not read.
pub fn pick(cells: &[u8], wanted: Tokens) -> Result<Picked, Refusal>
    ensures { told_by pick_of result ≡ pick_from (token_count wanted) 0 0 (items_of cells.now) }
{
    let n = molecule::item_count(cells) as usize;
    let mut total = Tokens::ZERO;
    for taken in 0..n {
        if let Some(change) = total.checked_sub(wanted) {
            return Ok(Picked { taken, change });
        }
        total = plus_cell(cells, taken, total)?;
    }
    let change = total.checked_sub(wanted).ok_or(Refusal::InsufficientCells)?;
    Ok(Picked { taken: n, change })
}

// The pick of a request: nothing where it is untyped.
pub fn pick_typed(cells: &[u8], udt: &[u8], local_amount: Tokens) -> Result<Picked, Refusal>
    ensures { told_by pick_of result ≡ pick_typed udt.now (token_count local_amount) (items_of cells.now) }
{
    if udt.is_empty() {
        return Ok(Picked {
            taken: 0,
            change: Tokens::ZERO,
        });
    }
    pick(cells, local_amount)
}

// ---- the change

// The capacity of a change output under our lock, of the type. It fits 64 bits for scripts that are readable: they say their length in four bytes.
pub fn change_capacity(source: &[u8], udt: &[u8]) -> Option<Shannons>
    ensures value { result ≡ change_capacity (length (args_of source.now)) (length (args_of udt.now)) }
    ensures udt_bound { readable Script source.now ≡ true → readable (option Script) udt.now ≡ true → capacity_for source.now udt.now < 2 ^ 64 }
{
    transaction_writer::are_bytes(source);
    transaction_writer::are_bytes(udt);
    let lock_args = fields::args(source);
    let type_args = fields::args(udt);
    units::fee::change_capacity(lock_args.len() as u64, type_args.len() as u64)
}

// Writes the change output, if there is change, to the start of out.
#[tactic(auto, using(crate::proofs::ChangeLaws::changed), unfolding(crate::proofs::ChangeLaws::changing))]
fn put_change(
    picked: Picked,
    udt: &[u8],
    source: &[u8],
    out: &mut [u8],
) -> Result<UdtInputsOutputs, Refusal>
    requires { (readable Script source.now ≡ true) × (readable (option Script) udt.now ≡ true) }
    ensures { (told_by built_of result, out.new) ≡ putting_made (with_change source.now udt.now (pick_of picked) (length out.old)) out.old }
{
    let Picked { taken, change } = picked;
    if change == Tokens::ZERO {
        return Ok(UdtInputsOutputs {
            taken,
            change,
            capacity: Shannons::ZERO,
        });
    }
    // Never refused, of readable scripts.
    let capacity = change_capacity(source, udt).ok_or(Refusal::OverflowError)?;
    let room = out.len().min(MAX_BYTES);
    if !cell_output::has_room(room, 0, source.len(), udt.len()) {
        return Err(Refusal::BufferTooShort);
    }
    cell_output::put_cell_output(out, 0, capacity, source, udt);
    Ok(UdtInputsOutputs {
        taken,
        change,
        capacity,
    })
}

// ---- the call

// Whether the lent bytes are readable. A `bool`, and no `Result`, as three tests have one refusal (docs/PROVING.md, "A chain of checks with one number").
fn are_readable(cells: &[u8], udt: &[u8], source: &[u8]) -> bool
    ensures { check 3 result ≡ lent cells.now udt.now source.now }
{
    transaction::is_token_cells(cells)
        && transaction::is_optional_script(udt)
        && transaction::is_script(source)
}

// Picks token cells for the local amount, and writes the change output, if there is one, to the start of out. Refused, and out as it was: a lent list or script
// that is unreadable (3), a pick that fails (12, 10, 9), an output over out or over 133,116 bytes (13). An empty type is none, and then nothing is picked.
pub fn build_udt_inputs_outputs(
    cells: &[u8],
    udt: &[u8],
    source: &[u8],
    local_amount: Tokens,
    out: &mut [u8],
) -> Result<UdtInputsOutputs, Refusal>
    ensures { (told_by built_of result, out.new) ≡ udt_inputs_outputs cells.now udt.now source.now (token_count local_amount) out.old }
{
    if !are_readable(cells, udt, source) {
        return Err(Refusal::LentBytesUnreadable);
    }
    let picked = pick_typed(cells, udt, local_amount)?;
    put_change(picked, udt, source, out)
}
