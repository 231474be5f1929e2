// Writes transactions into a buffer that the caller lends.
#![tactic(auto)]

ghost use Rattle.std.specs.Prelude.{◌≡◌, ◌+◌, ◌≤◌, min, length};
ghost use Rattle.arithmetic.specs.LittleEndian.{AllBytes};
ghost use Rattle.molecule.specs.Molecule.{readable};
ghost use Rattle.molecule.specs.Write.{Put};
ghost use Rattle.transaction.specs.Ckb.{Transaction};
ghost use Rattle.error.specs.Outcome.{told};
ghost use Rattle.transaction_writer.specs.Written.{tx_head, fits, put_head, head_end, bytes_if, written};
ghost use Rattle.transaction_writer.specs.TxFields.{AreTxFields, tx_len, fields_bytes, are_in_form, sizes_of};

use error::Refusal;
use list_writer::{MAX_BYTES, capped, put_all, put_words};
use transaction::fields;

// The answer of a call that writes: how many bytes it wrote, or why it wrote none.
pub type Written = Result<usize, Refusal>;

// How long the lists of a transaction are.
#[derive(Clone, Copy, Debug, PartialEq, Eq, Hash)]
pub struct Sizes {
    pub deps: usize,
    pub headers: usize,
    pub inputs: usize,
    pub outputs: usize,
    pub datas: usize,
    pub witnesses: usize,
}

impl Sizes {
    // How long the transaction is; MAX_BYTES + 1 for all that is longer.
    pub fn total(self) -> usize
        ensures { result ≡ min (tx_len self) 133117 }
    {
        let n = capped(44, self.deps);
        let n = capped(n, self.headers);
        let n = capped(n, self.inputs);
        let n = capped(n, self.outputs);
        let n = capped(n, self.datas);
        capped(n, self.witnesses)
    }

    // Whether it fits 133,116 bytes, and a buffer of `room` bytes.
    #[tactic(auto, using(std::proofs::lemmas::Bool::Decides::nat_tests), unfolding(crate::specs::Written::fits))]
    pub fn fit(self, room: usize) -> bool
        ensures { result ≡ fits (tx_len self) room }
    {
        let n = self.total();
        n <= MAX_BYTES && n <= room
    }
}

// Puts both tables' headers and the version.
fn put_headers(out: &mut [u8], version: u32, z: Sizes) -> usize
    requires { (44 ≤ length out.old) × (tx_len z ≤ 133116) }
    ensures { Put out.old 0 (tx_head version z.deps z.headers z.inputs z.outputs z.datas z.witnesses) out.new result }
{
    let o2 = 32 + z.deps as u32;
    let o3 = o2 + z.headers as u32;
    let o4 = o3 + z.inputs as u32;
    let o5 = o4 + z.outputs as u32;
    let raw = o5 + z.datas as u32;
    let whole = 12 + raw + z.witnesses as u32;
    put_words(
        out,
        0,
        &[whole, 12, 12 + raw, raw, 28, 32, o2, o3, o4, o5, version],
    )
}

// Puts what stands before the lists of a transaction, from their lengths: nothing where the transaction is over out or over 133,116 bytes.
#[tactic(auto, using(std::proofs::lemmas::Bool::Decides::nat_tests, crate::proofs::PutLaws::head_length), unfolding(crate::specs::Written::put_head, crate::specs::Written::head_end, crate::specs::Written::fits))]
pub fn put_head(out: &mut [u8], version: u32, z: Sizes) -> usize
    ensures out_after { out.new ≡ put_head out.old version z.deps z.headers z.inputs z.outputs z.datas z.witnesses }
    ensures value { result ≡ head_end out.old z.deps z.headers z.inputs z.outputs z.datas z.witnesses }
{
    if !z.fit(out.len()) {
        return 0;
    }
    put_headers(out, version, z)
}

// The fields of a transaction: the version, and its lists.
#[derive(Clone, Copy, Debug, PartialEq, Eq)]
pub struct TxFields<'a> {
    pub version: u32,
    pub deps: &'a [u8],
    pub headers: &'a [u8],
    pub inputs: &'a [u8],
    pub outputs: &'a [u8],
    pub datas: &'a [u8],
    pub witnesses: &'a [u8],
}

impl<'a> TxFields<'a> {
    // Those of a transaction.
    pub fn of(tx: &'a [u8]) -> TxFields<'a>
        ensures { AreTxFields result tx.now }
    {
        TxFields {
            version: fields::version(tx),
            deps: fields::cell_deps(tx),
            headers: fields::header_deps(tx),
            inputs: fields::inputs(tx),
            outputs: fields::outputs(tx),
            datas: fields::outputs_data(tx),
            witnesses: fields::witnesses(tx),
        }
    }

    // Whether each list is in its list form.
    #[tactic(auto, unfolding(crate::specs::Written::in_form))]
    fn are_in_form(self) -> bool
        ensures { result ≡ are_in_form self.entry }
    {
        transaction::is_cell_deps(self.deps)
            && transaction::is_header_deps(self.headers)
            && transaction::is_inputs(self.inputs)
            && transaction::is_outputs(self.outputs)
            && molecule::is_bytes_vec(self.datas)
            && molecule::is_bytes_vec(self.witnesses)
    }

    fn sizes(self) -> Sizes
        ensures { result ≡ sizes_of self.entry }
    {
        Sizes {
            deps: self.deps.len(),
            headers: self.headers.len(),
            inputs: self.inputs.len(),
            outputs: self.outputs.len(),
            datas: self.datas.len(),
            witnesses: self.witnesses.len(),
        }
    }

    // Puts the transaction at the start of out.
    fn put(self, out: &mut [u8]) -> usize
        requires { (tx_len (sizes_of self) ≤ length out.old) × (tx_len (sizes_of self) ≤ 133116) }
        ensures { Put out.old 0 (fields_bytes self.entry) out.new result }
    {
        let at = put_head(out, self.version, self.sizes());
        put_all(
            out,
            at,
            &[
                self.deps,
                self.headers,
                self.inputs,
                self.outputs,
                self.datas,
                self.witnesses,
            ],
        )
    }
}

// Writes a transaction from its fields, each list in its list form, to the start of out. Refused, and out as it was: a list that is not in its form
// (3), a transaction over out or over 133,116 bytes (13).
#[tactic(auto, using(crate::proofs::AnswerLaws::writes), unfolding(crate::proofs::AnswerLaws::writing))]
pub fn write_transaction(f: TxFields, out: &mut [u8]) -> Written
    ensures { (told result, out.new) ≡ written (bytes_if 3 (are_in_form f.entry) (fields_bytes f.entry)) out.old }
{
    if !f.are_in_form() {
        return Err(Refusal::LentBytesUnreadable);
    }
    if !f.sizes().fit(out.len()) {
        return Err(Refusal::BufferTooShort);
    }
    Ok(f.put(out))
}

// Shows that each element of a slice of bytes is below 256, which a read of any one tells.
pub fn are_bytes(s: &[u8])
    ensures { AllBytes s.now }
{
    let _first = s.first();
}

// Reads the fields of a transaction and writes them to the start of out: the same bytes again. Refused, and out as it was: bytes that are no
// transaction (1), a transaction over out or over 133,116 bytes (13).
#[tactic(auto, using(error::proofs::Outcomes::outcomes), unfolding(crate::proofs::AnswerLaws::writing))]
pub fn rewrite(s: &[u8], out: &mut [u8]) -> Written
    ensures { (told result, out.new) ≡ written (bytes_if 1 (readable Transaction s.now) s.now) out.old }
{
    if !transaction::is_transaction(s) {
        return Err(Refusal::OurTransactionUnreadable);
    }
    write_transaction(TxFields::of(s), out)
}
