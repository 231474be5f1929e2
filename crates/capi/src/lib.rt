// What a host in Rust or C links: the library's functions under plain names. A slice crosses as a pointer and then a length, the four words of
// an answer as a pointer alone.
#![tactic(auto, using(crate::proofs::Ways::ways))]

mod replay;
mod tables;

ghost use Rattle.std.specs.Prelude.{◌≡◌, ◌+◌, ◌*◌, ◌^◌, length};
ghost use Rattle.molecule.specs.Molecule.{readable};
ghost use Rattle.transaction.specs.Ckb.{OutPoints, Script, Transaction, Records};
ghost use Rattle.rules.specs.Judge.{judge};
ghost use Rattle.error.specs.Outcome.{fine};
ghost use Rattle.transaction_writer.specs.Written.{in_form, tx_bytes, bytes_if, written};
ghost use Rattle.case_file.specs.CaseFile.{case_line};
ghost use Rattle.funding_cell.specs.FundingCell.{build_funding_cell};
ghost use Rattle.udt_cells.specs.Change.{udt_inputs_outputs};
ghost use Rattle.funding_builder.specs.Base.{lent_of, build_base};
ghost use Rattle.words.specs.Words.{in_words, writing, surplus_words};
ghost use Rattle.transaction_lists.specs.Found.{version_found, count_found};
ghost use Rattle.item_places.specs.Places.{places_found, listed};
ghost use Rattle.answer_words.specs.Answers.{count_words, cell_words, pick_words, request};
ghost use Rattle.answer_words.specs.Buffers.{item_found};

use answer_words::buffers;
use arithmetic::amount;
use funding_builder::Lent;
use transaction_writer::TxFields;
use units::Tokens;
use words::WORDS;

// Whether s is a transaction.
#[unsafe(no_mangle)]
pub extern "C" fn basinpantry_is_transaction(s: &[u8]) -> bool
    ensures { result ≡ readable Transaction s.now }
{
    transaction::is_transaction(s)
}

// Whether s is a script.
#[unsafe(no_mangle)]
pub extern "C" fn basinpantry_is_script(s: &[u8]) -> bool
    ensures { result ≡ readable Script s.now }
{
    transaction::is_script(s)
}

// Whether s is a list of resolved cells.
#[unsafe(no_mangle)]
pub extern "C" fn basinpantry_is_records(s: &[u8]) -> bool
    ensures { result ≡ readable Records s.now }
{
    transaction::is_records(s)
}

// Whether s is a list of out points.
#[unsafe(no_mangle)]
pub extern "C" fn basinpantry_is_out_points(s: &[u8]) -> bool
    ensures { result ≡ readable OutPoints s.now }
{
    transaction::is_out_points(s)
}

// The version of a transaction.
#[unsafe(no_mangle)]
pub extern "C" fn basinpantry_version(tx: &[u8], values: &mut [u64; WORDS]) -> u32
    ensures { (result, values.new) ≡ in_words count_words (version_found tx.now) values.old }
{
    let found = transaction_lists::version(tx);
    answer_words::tell_found(found, values)
}

// How many items a list of a transaction has.
#[unsafe(no_mangle)]
pub extern "C" fn basinpantry_item_count(tx: &[u8], list: u32, values: &mut [u64; WORDS]) -> u32
    ensures { (result, values.new) ≡ in_words count_words (count_found tx.now list) values.old }
{
    let found = transaction_lists::item_count(tx, list);
    answer_words::tell_found(found, values)
}

// Where the items of a list of a transaction stand.
#[unsafe(no_mangle)]
pub extern "C" fn basinpantry_items(
    tx: &[u8],
    list: u32,
    places: &mut [u64],
    values: &mut [u64; WORDS],
) -> u32
    ensures { ((result, values.new), places.new) ≡ writing count_words (listed (places_found tx.now list (length places.old)) places.old) values.old }
{
    let found = item_places::items(tx, list, places);
    answer_words::tell_found(found, values)
}

// Writes an item of a list of a transaction.
#[unsafe(no_mangle)]
pub extern "C" fn basinpantry_item(
    tx: &[u8],
    list: u32,
    i: usize,
    out: &mut [u8],
    values: &mut [u64; WORDS],
) -> u32
    ensures { ((result, values.new), out.new) ≡ writing count_words (written (item_found tx.now list i) out.old) values.old }
{
    let written = buffers::put_item(tx, list, i, out);
    answer_words::tell_written(written, values)
}

// Writes a transaction from its fields.
#[unsafe(no_mangle)]
pub extern "C" fn basinpantry_write_transaction(
    version: u32,
    cell_deps: &[u8],
    header_deps: &[u8],
    inputs: &[u8],
    outputs: &[u8],
    outputs_data: &[u8],
    witnesses: &[u8],
    out: &mut [u8],
    values: &mut [u64; WORDS],
) -> u32
    ensures { ((result, values.new), out.new)
        ≡ writing count_words (written (bytes_if 3 (in_form cell_deps.now header_deps.now inputs.now outputs.now outputs_data.now witnesses.now)
        (tx_bytes version cell_deps.now header_deps.now inputs.now outputs.now outputs_data.now witnesses.now)) out.old) values.old }
{
    let fields = TxFields {
        version,
        deps: cell_deps,
        headers: header_deps,
        inputs,
        outputs,
        datas: outputs_data,
        witnesses,
    };
    let written = transaction_writer::write_transaction(fields, out);
    answer_words::tell_written(written, values)
}

// Reads the fields of a transaction and writes them again.
#[unsafe(no_mangle)]
pub extern "C" fn basinpantry_rewrite(tx: &[u8], out: &mut [u8], values: &mut [u64; WORDS]) -> u32
    ensures { ((result, values.new), out.new) ≡ writing count_words (written (bytes_if 1 (readable Transaction tx.now) tx.now) out.old) values.old }
{
    let written = transaction_writer::rewrite(tx, out);
    answer_words::tell_written(written, values)
}

// Judges a peer's update.
#[unsafe(no_mangle)]
pub extern "C" fn basinpantry_update_for_peer(
    ours: &[u8],
    peer: &[u8],
    lock: &[u8],
    udt: &[u8],
    source: &[u8],
    rate: u64,
    records: &[u8],
    values: &mut [u64; WORDS],
) -> u32
    ensures { (result, values.new)
        ≡ in_words surplus_words (judge lock.now udt.now ours.now
        (record { peer = peer.entry.now; records = records.now; source = source.now; rate = rate })) values.old }
{
    let update = funding_tx::update_for_peer(ours, peer, lock, udt, source, rate, records);
    words::tell_update(update, values)
}

// Writes the verdict line of a case file.
#[unsafe(no_mangle)]
pub extern "C" fn basinpantry_check_case(
    file: &[u8],
    line: &mut [u8],
    values: &mut [u64; WORDS],
) -> u32
    ensures { ((result, values.new), line.new) ≡ writing count_words (written (fine (case_line file.now)) line.old) values.old }
{
    let mut verdict = [0u8; verdict_line::LINE_BYTES];
    let n = case_file::check_case(file, &mut verdict);
    let written = buffers::put_first(&verdict[..n], line);
    answer_words::tell_written(written, values)
}

// The funding cell of a request.
#[unsafe(no_mangle)]
pub extern "C" fn basinpantry_build_funding_cell(
    ours: &[u8],
    udt: &[u8],
    local_low: u64,
    local_high: u64,
    local_reserved: u64,
    remote_low: u64,
    remote_high: u64,
    remote_reserved: u64,
    values: &mut [u64; WORDS],
) -> u32
    ensures { (result, values.new)
        ≡ in_words cell_words (build_funding_cell ours.now udt.now (request local_low local_high local_reserved remote_low remote_high remote_reserved))
        values.old }
{
    let request = answer_words::request(
        local_low,
        local_high,
        local_reserved,
        remote_low,
        remote_high,
        remote_reserved,
    );
    let cell = funding_cell::build_funding_cell(ours, udt, request);
    answer_words::tell_cell(cell, values)
}

// The token cells that are picked for a wanted amount, and the change output.
#[unsafe(no_mangle)]
pub extern "C" fn basinpantry_build_udt_inputs_outputs(
    cells: &[u8],
    udt: &[u8],
    source: &[u8],
    wanted_low: u64,
    wanted_high: u64,
    out: &mut [u8],
    values: &mut [u64; WORDS],
) -> u32
    ensures { ((result, values.new), out.new)
        ≡ writing pick_words (udt_inputs_outputs cells.now udt.now source.now (wanted_low + 2 ^ 64 * wanted_high) out.old) values.old }
{
    let wanted = Tokens(amount::from_halves(wanted_low, wanted_high));
    let pick = udt_cells::build_udt_inputs_outputs(cells, udt, source, wanted, out);
    answer_words::tell_pick(pick, values)
}

// The base transaction of a request.
#[unsafe(no_mangle)]
pub extern "C" fn basinpantry_build_base<'a>(
    ours: &'a [u8],
    lock: &[u8],
    udt: &[u8],
    source: &[u8],
    cells: &[u8],
    udt_deps: &'a [u8],
    lock_dep: &'a [u8],
    extra_deps: &'a [u8],
    local_low: u64,
    local_high: u64,
    local_reserved: u64,
    remote_low: u64,
    remote_high: u64,
    remote_reserved: u64,
    out: &mut [u8],
    values: &mut [u64; WORDS],
) -> u32
    ensures { ((result, values.new), out.new)
        ≡ writing count_words (written (build_base (lent_of ours.now lock.now udt.now source.now cells.now udt_deps.now lock_dep.now extra_deps.now)
        (request local_low local_high local_reserved remote_low remote_high remote_reserved)) out.old) values.old }
{
    let request = answer_words::request(
        local_low,
        local_high,
        local_reserved,
        remote_low,
        remote_high,
        remote_reserved,
    );
    let lent = Lent {
        ours,
        lock,
        udt,
        source,
        cells,
        udt_deps,
        lock_dep,
        extra_deps,
    };
    let written = funding_builder::build_base(&lent, request, out);
    answer_words::tell_written(written, values)
}
