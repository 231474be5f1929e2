// Amounts: numbers of 128 bits, in two halves of 64 and in 16 bytes.
ghost use Rattle.std.specs.Prelude.{◌≡◌, ◌+◌, ◌-◌, ◌*◌, ◌/◌, ◌%◌, ◌^◌, min};
ghost use Rattle.arithmetic.specs.Amount.{amount_at};

// The amount of two halves.
pub fn from_halves(low: u64, high: u64) -> u128
    ensures { result ≡ low + 2 ^ 64 * high }
{
    u128::from(low) + (u128::from(high) << 64)
}

// The low half.
pub fn low(amount: u128) -> u64
    ensures { result ≡ amount % 2 ^ 64 }
{
    (amount % (1 << 64)) as u64
}

// The high half.
pub fn high(amount: u128) -> u64
    ensures { result ≡ amount / 2 ^ 64 }
{
    (amount >> 64) as u64
}

// The amount as a u64, by `TryFrom`, and u64::MAX where it is wider.
pub fn capped_u64(amount: u128) -> u64
    ensures { result ≡ min amount (2 ^ 64 - 1) }
{
    u64::try_from(amount).unwrap_or(u64::MAX)
}

// The amount of the first 16 bytes; more may follow.
pub fn from_le_bytes(s: &[u8]) -> Option<u128>
    ensures { result ≡ amount_at s.now }
{
    let bytes = s.first_chunk::<16>()?;
    Some(u128::from_le_bytes(*bytes))
}
