// Why a request is refused: a number for programs, the values that it carries, and its sentence for people. What goes case by case is written by
// tools/refusals.py, from refusals.txt.
#![tactic(auto, using(crate::proofs::Ways::ways), unfolding(crate::specs::Refusal::sentence, crate::specs::Refusal::number, crate::specs::Refusal::values, crate::specs::Refusal::answered))]

ghost use Rattle.std.specs.Prelude.{◌≡◌, length, get_or, Some};
ghost use Rattle.error.specs.Refusal.{number, values, answered, sentence};

use std::error::Error;
use std::fmt;

// A refusal.
#[derive(Clone, Copy, Debug, PartialEq, Eq, Hash)]
pub enum Refusal {
    OurTransactionUnreadable,
    PeerTransactionUnreadable,
    LentBytesUnreadable,
    PeerFundingTxExceedsLimit,
    InvalidPeerFundingTx,
    /// With its index among all inputs.
    PeerInputUsesOurFundingLock {
        input_index: usize,
    },
    OverflowError,
    /// With the fee paid and the one that the rate requires for a transaction of this size, in shannons.
    PeerFundingFeeTooLow {
        peer_fee: u64,
        required_fee: u64,
        funding_fee_rate: u64,
        tx_size: u64,
    },
    InsufficientCells,
    TokenTotalOverflow,
    MissingCellDep,
    TokenCellDataTooShort,
    BufferTooShort,
    TooManyHolds,
    TooManyExclusions,
}

// What a call answers that changes a table or fills a lent buffer.
pub type Answer = Result<(), Refusal>;

impl Refusal {
    // Its number for programs, the rules' number of this refusal: a case with fields has none by `as`.
    pub fn number(self) -> u8
        ensures { result ≡ number self }
    {
        match self {
            Refusal::OurTransactionUnreadable => 1,
            Refusal::PeerTransactionUnreadable => 2,
            Refusal::LentBytesUnreadable => 3,
            Refusal::PeerFundingTxExceedsLimit => 4,
            Refusal::InvalidPeerFundingTx => 5,
            Refusal::PeerInputUsesOurFundingLock { .. } => 6,
            Refusal::OverflowError => 7,
            Refusal::PeerFundingFeeTooLow { .. } => 8,
            Refusal::InsufficientCells => 9,
            Refusal::TokenTotalOverflow => 10,
            Refusal::MissingCellDep => 11,
            Refusal::TokenCellDataTooShort => 12,
            Refusal::BufferTooShort => 13,
            Refusal::TooManyHolds => 14,
            Refusal::TooManyExclusions => 15,
        }
    }

    // How many values it carries.
    pub fn value_count(self) -> usize
        ensures { result ≡ length (values self) }
    {
        match self {
            Refusal::PeerInputUsesOurFundingLock { .. } => 1,
            Refusal::PeerFundingFeeTooLow { .. } => 4,
            _ => 0,
        }
    }

    // The value at a place, and 0 past the last.
    pub fn value(self, i: usize) -> u64
        ensures { result ≡ get_or (values self) i 0 }
    {
        match self {
            Refusal::PeerInputUsesOurFundingLock { input_index } if i == 0 => input_index as u64,
            Refusal::PeerFundingFeeTooLow {
                peer_fee,
                required_fee,
                funding_fee_rate,
                tx_size,
            } if i < 4 => [peer_fee, required_fee, funding_fee_rate, tx_size][i],
            _ => 0,
        }
    }

    // Its sentence for people.
    pub fn sentence(self) -> &'static str
        ensures { result.now ≡ sentence self }
    {
        match self {
            Refusal::OurTransactionUnreadable => "our own transaction's bytes are no transaction",
            Refusal::PeerTransactionUnreadable => "the peer's bytes are no transaction",
            Refusal::LentBytesUnreadable => {
                "a lent script, list, record, hash or table is unreadable, the records are not one for each added input, or there is no such list or item"
            }
            Refusal::PeerFundingTxExceedsLimit => {
                "the peer's transaction is over the size limit, or adds too many inputs, outputs, cell deps or header deps"
            }
            Refusal::InvalidPeerFundingTx => "the peer's funding transaction is invalid",
            Refusal::PeerInputUsesOurFundingLock { .. } => {
                "an input that the peer added spends a cell under our own source lock"
            }
            Refusal::OverflowError => "a figure, or a sum of figures, is too wide",
            Refusal::PeerFundingFeeTooLow { .. } => "the fee is too low",
            Refusal::InsufficientCells => {
                "the token cells ended before their total reached the wanted amount"
            }
            Refusal::TokenTotalOverflow => "the total of the picked token cells is 2^128 or more",
            Refusal::MissingCellDep => {
                "tokens were picked, and the token's cell deps or the lock's were not supplied"
            }
            Refusal::TokenCellDataTooShort => "a token cell's data is under 16 bytes",
            Refusal::BufferTooShort => "the result is over the lent buffer, or over 133,116 bytes",
            Refusal::TooManyHolds => "the call would leave more than 256 hold records",
            Refusal::TooManyExclusions => {
                "the call would leave more than 64 excluded transactions or 512 out points"
            }
        }
    }
}

impl fmt::Display for Refusal {
    ghost output = { λ r. Some (sentence r) };

    fn fmt<W: fmt::Write>(&self, f: &mut fmt::Formatter<W>) -> fmt::Result {
        f.write_str(self.sentence())
    }
}

impl Error for Refusal {}

// An answer's number for programs, 0 where the call is done: the C interface has it, and `From` can't be of a `Result` for a number, since both are the
// library's.
pub fn number<T: Drop>(answer: Result<T, Refusal>) -> u8
    ensures { result ≡ answered answer }
{
    match answer {
        Ok(_) => 0,
        Err(why) => why.number(),
    }
}
