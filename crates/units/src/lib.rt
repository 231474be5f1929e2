// Units as types of their own: a shannon figure meets no token figure in a sum, and milliseconds no block number.
#![tactic(auto, using(crate::proofs::Ways::ways), unfolding(crate::specs::Units::capped_sum, crate::specs::Units::later, crate::specs::Units::is_at_least, crate::specs::Fee::required_fee, crate::specs::Fee::change_capacity))]

pub mod fee;

ghost use Rattle.std.specs.Prelude.{◌≡◌, ℕ, refl};
ghost use Rattle.std.specs.Option.{option_map};
ghost use Rattle.arithmetic.specs.Amount.{sum, difference, amount_at};
ghost use Rattle.units.specs.Units.{in_shannons, in_tokens, capped_sum, later, is_at_least};

use arithmetic::amount;

// A figure of 128 bits in a unit: figures of one unit are added, taken from one another and compared, and no others.
pub trait Figure: Copy {
    // How many they are, and so many.
    ghost count: { Self → ℕ };

    ghost of: { ℕ → Self };

    fn new(n: u128) -> Self
        ensures { result ≡ of n };

    fn count(self) -> u128
        ensures { result ≡ count self };

    ghost told: { (n : ℕ) → count (of n) ≡ n };

    // The sum, where it is below 2^128.
    final fn checked_add(self, other: Self) -> Option<Self>
        ensures { result ≡ option_map of (sum (count self) (count other)) }
    {
        self.count()
            .checked_add(other.count())
            .map(|n| Self::new(n))
    }

    // The difference, where it is not below 0.
    final fn checked_sub(self, other: Self) -> Option<Self>
        ensures { result ≡ option_map of (difference (count self) (count other)) }
    {
        self.count()
            .checked_sub(other.count())
            .map(|n| Self::new(n))
    }
}

// CKB's unit of capacity: 100,000,000 are one CKByte.
#[derive(Clone, Copy, Debug, Default, PartialEq, Eq, PartialOrd, Ord, Hash)]
pub struct Shannons(pub u128);

// An amount of a token (RFC 0025).
#[derive(Clone, Copy, Debug, Default, PartialEq, Eq, PartialOrd, Ord, Hash)]
pub struct Tokens(pub u128);

// A time, or a span of time, in milliseconds.
#[derive(Clone, Copy, Debug, Default, PartialEq, Eq, PartialOrd, Ord, Hash)]
pub struct Millis(pub u64);

// The number of a block.
#[derive(Clone, Copy, Debug, Default, PartialEq, Eq, PartialOrd, Ord, Hash)]
pub struct BlockNumber(pub u64);

impl Figure for Shannons {
    ghost count = { λ s. s.0 };

    ghost of = { in_shannons };

    ghost told = { λ n. refl };

    fn new(n: u128) -> Shannons {
        Shannons(n)
    }

    fn count(self) -> u128 {
        self.0
    }
}

impl Figure for Tokens {
    ghost count = { λ t. t.0 };

    ghost of = { in_tokens };

    ghost told = { λ n. refl };

    fn new(n: u128) -> Tokens {
        Tokens(n)
    }

    fn count(self) -> u128 {
        self.0
    }
}

impl From<u64> for Shannons {
    ghost from_gives = { λ x s. s ≡ in_shannons x };

    fn from(x: u64) -> Shannons {
        Shannons(u128::from(x))
    }
}

impl From<u64> for Tokens {
    ghost from_gives = { λ x t. t ≡ in_tokens x };

    fn from(x: u64) -> Tokens {
        Tokens(u128::from(x))
    }
}

impl Shannons {
    pub const ZERO: Shannons = Shannons(0);

    // As a function, so that the constant is proved.
    pub fn zero() -> Shannons
        ensures { result ≡ in_shannons 0 }
    {
        Shannons::ZERO
    }

    // The sum, and the greatest amount where that is wider: a sum of capacities of 64 bits never is. The library has no trait for it.
    pub fn saturating_add(self, other: Shannons) -> Shannons
        ensures { result ≡ capped_sum self other }
    {
        Shannons(self.0.saturating_add(other.0))
    }
}

impl Tokens {
    pub const ZERO: Tokens = Tokens(0);

    // As a function, so that the constant is proved.
    pub fn zero() -> Tokens
        ensures { result ≡ in_tokens 0 }
    {
        Tokens::ZERO
    }

    // The amount of the first 16 bytes of a cell's data.
    pub fn from_le_bytes(s: &[u8]) -> Option<Tokens>
        ensures { result ≡ option_map in_tokens (amount_at s.now) }
    {
        amount::from_le_bytes(s).map(Tokens)
    }
}

impl Millis {
    // The time after a wait, and the greatest one where that is too far off. The library has no trait for it.
    pub fn saturating_add(self, wait: Millis) -> Millis
        ensures { result ≡ later self wait }
    {
        Millis(self.0.saturating_add(wait.0))
    }
}

impl BlockNumber {
    // Whether this is at least `start` plus `blocks`: by subtraction, since that sum may not fit.
    pub fn at_least(self, start: BlockNumber, blocks: u64) -> bool
        ensures { result ≡ is_at_least self start blocks }
    {
        blocks <= self.0 && start.0 <= self.0 - blocks
    }
}
