// Numbers of 16 bytes.
ghost use Rattle.std.specs.Prelude.{◌≡◌, ◌+◌, ◌*◌, ◌^◌};
ghost use Rattle.arithmetic.specs.LittleEndian.{u64_at};

use arithmetic::{amount, little_endian};

// The number of the first 16 bytes. A half of which less than all stands there is 0.
pub fn u128_of(s: &[u8]) -> u128
    ensures { result ≡ u64_at s.now 0 + 2 ^ 64 * u64_at s.now 8 }
{
    let low = little_endian::u64_at(s, 0);
    let high = little_endian::u64_at(s, 8);
    amount::from_halves(low, high)
}
