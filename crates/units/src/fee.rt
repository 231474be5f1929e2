// What a transaction must pay, and what a token change cell must hold.
ghost use Rattle.std.specs.Prelude.{◌≡◌};
ghost use Rattle.units.specs.Fee.{required_fee, change_capacity};

use crate::Shannons;

const SHANNONS_PER_BYTE: u64 = 100_000_000;

// A change cell without its scripts' args: capacity, lock, type, amount.
const CHANGE_BYTES: u64 = 8 + 33 + 33 + 16;

// The fee that a transaction of this size must pay. The rate is in shannons for 1,000 bytes.
pub fn required_fee(rate: u64, size: u64) -> Shannons
    ensures { result ≡ required_fee rate size }
{
    Shannons::from(rate.saturating_mul(size) / 1000)
}

// The capacity of a token change cell, by the lengths of its scripts' args, where it fits 64 bits.
pub fn change_capacity(lock_args: u64, type_args: u64) -> Option<Shannons>
    ensures { result ≡ change_capacity lock_args type_args }
{
    let bytes = CHANGE_BYTES.checked_add(lock_args)?.checked_add(type_args)?;
    Some(Shannons::from(SHANNONS_PER_BYTE.checked_mul(bytes)?))
}
