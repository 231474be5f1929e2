// Writes the line that the check program prints for an answer. Digits are put by hand: as text that the library
// prints into a buffer of its own and that is put into the line then, with a law that its digits are those of the definition, this is no plainer. The line and
// the place in it stand side by side, as in `molecule::write`, which says why.
#![tactic(auto, using(crate::proofs::Ways::ways))]

ghost use Rattle.std.specs.Prelude.{◌≡◌, ◌+◌, ◌≤◌, [], ◌∷◌, length};
ghost use Rattle.molecule.specs.Write.{splice, put_at, put_end, Put};
ghost use Rattle.error.specs.Refusal.{number, values};
ghost use Rattle.units.specs.Units.{shannon_count};
ghost use Rattle.rules.specs.Told.{told};
ghost use Rattle.verdict_line.specs.VerdictLine.{digit, hex, decimal, spaced, accepted, refused_with, line_of};

use arithmetic::amount;
use error::Refusal;
use molecule::write;
use rules::Update;
use units::Shannons;

// The longest line has five numbers of 20 digits, with a space or a newline after each.
pub const LINE_BYTES: usize = 105;

// A digit below 16 in ASCII.
fn ascii(d: u64) -> u8
    requires { d + 1 ≤ 16 }
    ensures { result ≡ digit d }
{
    if d < 10 {
        b'0' + d as u8
    } else {
        b'a' + (d - 10) as u8
    }
}

// Puts the 16 hex digits of x, which are made from the lowest on.
fn put_hex(out: &mut [u8], at: usize, x: u64) -> usize
    ensures out_after { out.new ≡ put_at out.old at (hex 16 x) }
    ensures value { result ≡ put_end out.old at (hex 16 x) }
{
    let mut bytes = [0u8; 16];
    let mut left = x;
    for i in (0..16).rev() {
        bytes[i] = ascii(left % 16);
        left /= 16;
    }
    write::put(out, at, &bytes)
}

// Puts the decimal digits of x, which are made from the lowest on.
fn put_decimal(out: &mut [u8], at: usize, x: u64) -> usize
    ensures out_after { out.new ≡ put_at out.old at (decimal x) }
    ensures value { result ≡ put_end out.old at (decimal x) }
{
    let mut bytes = [0u8; 20];
    let mut left = x;
    for i in (0..20).rev() {
        if left < 10 {
            bytes[i] = ascii(left);
            return write::put(out, at, &bytes[i..]);
        }
        bytes[i] = ascii(left % 10);
        left /= 10;
    }
    write::put(out, at, &bytes)
}

// Puts a byte.
fn put_byte(out: &mut [u8], at: usize, b: u8) -> usize
    ensures out_after { out.new ≡ put_at out.old at (b ∷ []) }
    ensures value { result ≡ put_end out.old at (b ∷ []) }
{
    write::put(out, at, &[b])
}

// Puts the 32 hex digits of an amount.
fn put_amount(out: &mut [u8], at: usize, x: u128) -> usize
    requires { at + 32 ≤ length out.old }
    ensures { Put out.old at (hex 32 x) out.new result }
{
    let at = put_hex(out, at, amount::high(x));
    put_hex(out, at, amount::low(x))
}

// Puts the line of an acceptance: 0 and the surplus.
fn put_surplus(line: &mut [u8], surplus: Shannons) -> usize
    requires { 105 ≤ length line.old }
    ensures { Put line.old 0 (accepted (shannon_count surplus)) line.new result }
{
    let at = put_byte(line, 0, b'0');
    let at = put_byte(line, at, b' ');
    let at = put_amount(line, at, surplus.0);
    put_byte(line, at, b'\n')
}

// Puts a space and a number.
fn put_value(out: &mut [u8], at: usize, x: u64) -> usize
    requires { at + 21 ≤ length out.old }
    ensures { Put out.old at (32 ∷ decimal x) out.new result }
{
    let at = put_byte(out, at, b' ');
    put_decimal(out, at, x)
}

// Puts the values that a refusal carries.
fn put_values(out: &mut [u8], at: usize, refusal: Refusal) -> usize
    requires { at + 84 ≤ length out.old }
    ensures { Put out.old at (spaced (values refusal)) out.new result }
{
    let count = refusal.value_count();
    let mut to = at;
    for i in 0..count {
        to = put_value(out, to, refusal.value(i));
    }
    to
}

// Puts the line of a refusal: its number and its values.
fn put_refusal(line: &mut [u8], refusal: Refusal) -> usize
    requires { 105 ≤ length line.old }
    ensures { Put line.old 0 (refused_with (number refusal) (values refusal)) line.new result }
{
    let at = put_decimal(line, 0, u64::from(refusal.number()));
    let at = put_values(line, at, refusal);
    put_byte(line, at, b'\n')
}

// Writes the line of an answer to the start of `line`, and answers its length. The bytes behind it keep their value.
pub fn write_line(update: Update, line: &mut [u8; LINE_BYTES]) -> usize
    ensures line_after { line.new ≡ splice line.old 0 (line_of (told update)) }
    ensures value { result ≡ length (line_of (told update)) }
{
    match update {
        Ok(surplus) => put_surplus(line, surplus.capacity),
        Err(refusal) => put_refusal(line, refusal),
    }
}
