// Writes into a lent buffer. Where there is no room for all of it nothing is written, and the place that is answered is the one that was given. The buffer
// and the place go side by side and not in a struct: a struct would hold the borrow, and every contract would name the same two by longer paths.
ghost use Rattle.std.specs.Prelude.{◌≡◌, ◌+◌, ◌≤◌, length};
ghost use Rattle.arithmetic.specs.LittleEndian.{to_le};
ghost use Rattle.molecule.specs.Write.{splice, put_at, put_end};

use arithmetic::little_endian;

// Copies src to `at`, where there is room. By hand: with `copy_from_slice` the library for C would need `memmove` from outside.
fn copy(out: &mut [u8], at: usize, src: &[u8])
    requires { at + length src.now ≤ length out.old }
    ensures { out.new ≡ splice out.old at src.now }
{
    for i in 0..src.len() {
        out[at + i] = src[i];
    }
}

// Puts src at `at`, and answers the place after it.
pub fn put(out: &mut [u8], at: usize, src: &[u8]) -> usize
    ensures out_after { out.new ≡ put_at out.old at src.now }
    ensures value { result ≡ put_end out.old at src.now }
{
    if out.len() < at || out.len() - at < src.len() {
        return at;
    }
    copy(out, at, src);
    at + src.len()
}

// Puts the four bytes of x at `at`.
pub fn put_u32(out: &mut [u8], at: usize, x: u32) -> usize
    ensures out_after { out.new ≡ put_at out.old at (to_le 4 x) }
    ensures value { result ≡ put_end out.old at (to_le 4 x) }
{
    put(out, at, &little_endian::u32_bytes(x))
}

// Puts the eight bytes of x at `at`.
pub fn put_u64(out: &mut [u8], at: usize, x: u64) -> usize
    ensures out_after { out.new ≡ put_at out.old at (to_le 8 x) }
    ensures value { result ≡ put_end out.old at (to_le 8 x) }
{
    put(out, at, &little_endian::u64_bytes(x))
}
