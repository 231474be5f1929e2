// Numbers in a lent slice of bytes, the lowest byte first.
ghost use Rattle.std.specs.Prelude.{◌≡◌, ◌+◌, ◌*◌, ◌≤◌, length, slice_index};
ghost use Rattle.arithmetic.specs.LittleEndian.{to_le, u32_at, u64_at};

// The byte at `at`, and 0 past the end.
pub fn byte(s: &[u8], at: usize) -> u8
    ensures { result ≡ slice_index s.now at }
{
    if at < s.len() { s[at] } else { 0 }
}

// The u32 of the four bytes at `at`. Its callers have one test of the length each, and no byte is tested for itself.
fn four(s: &[u8], at: usize) -> u32
    requires { at + 4 ≤ length s.now }
    ensures { result ≡ u32_at s.now at }
{
    u32::from_le_bytes([s[at], s[at + 1], s[at + 2], s[at + 3]])
}

// The u32 at `at`, and 0 where fewer than 4 bytes stand there.
pub fn u32_at(s: &[u8], at: usize) -> u32
    ensures { result ≡ u32_at s.now at }
{
    if s.len() < 4 || s.len() - 4 < at {
        return 0;
    }
    four(s, at)
}

// The i-th u32 of a slice of them, and 0 past the last.
pub fn u32_of(s: &[u8], i: usize) -> u32
    ensures { result ≡ u32_at s.now (4 * i) }
{
    if s.len() / 4 <= i {
        return 0;
    }
    four(s, 4 * i)
}

// The u64 at `at`, and 0 where fewer than 8 bytes stand there.
pub fn u64_at(s: &[u8], at: usize) -> u64
    ensures { result ≡ u64_at s.now at }
{
    if s.len() < 8 || s.len() - 8 < at {
        return 0;
    }
    u64::from(u32_at(s, at)) + 0x1_0000_0000 * u64::from(u32_at(s, at + 4))
}

// The bytes of a u32.
pub fn u32_bytes(x: u32) -> [u8; 4]
    ensures { result ≡ to_le 4 x }
{
    x.to_le_bytes()
}

// The bytes of a u64.
pub fn u64_bytes(x: u64) -> [u8; 8]
    ensures { result ≡ to_le 8 x }
{
    x.to_le_bytes()
}
