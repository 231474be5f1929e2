// Bytes put at the start of a lent buffer.
ghost use Rattle.std.specs.Prelude.{◌≡◌};
ghost use Rattle.error.specs.Outcome.{fine, told};
ghost use Rattle.transaction_writer.specs.Written.{written};
ghost use Rattle.answer_words.specs.Buffers.{item_found};

use error::Refusal;
use list_writer::MAX_BYTES;
use molecule::write;
use transaction_writer::Written;

// Puts bytes at the start of out.
pub fn put_first(s: &[u8], out: &mut [u8]) -> Written
    ensures { (told result, out.new) ≡ written (fine s.now) out.old }
{
    if MAX_BYTES < s.len() || out.len() < s.len() {
        return Err(Refusal::BufferTooShort);
    }
    Ok(write::put(out, 0, s))
}

// Puts an item of a list of a transaction at the start of out. Refused, and out as it was: bytes that are no transaction (1), a list or an item that there is
// not (3), an item over out or over 133,116 bytes (13).
// The three parameters that name an item are those of the C interface, and cross it apart.
pub fn put_item(tx: &[u8], list: u32, i: usize, out: &mut [u8]) -> Written
    ensures { (told result, out.new) ≡ written (item_found tx.now list i) out.old }
{
    let n = transaction_lists::item_count(tx, list)?;
    if n as usize <= i {
        return Err(Refusal::LentBytesUnreadable);
    }
    put_first(transaction_lists::item(tx, list, i), out)
}
