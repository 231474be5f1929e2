// The answers of the library's calls as a number and the words that each has to tell, the figures that come as words, and what is put at the start of a lent
// buffer. The update's own answer is in crate words, which the run over a list of updates needs too.
#![tactic(auto, using(crate::proofs::Ways::ways), unfolding(words::specs::Words::set_words, words::specs::Words::in_words, error::specs::Outcome::number_of, error::specs::Outcome::values_of, crate::specs::Answers::count_words, crate::specs::Answers::cell_words, crate::specs::Answers::pick_words, crate::specs::Answers::replay_words))]

pub mod buffers;

ghost use Rattle.std.specs.Prelude.{◌≡◌};
ghost use Rattle.error.specs.Outcome.{told, told_by};
ghost use Rattle.words.specs.Words.{in_words};
ghost use Rattle.funding_cell.specs.FundingCell.{figures_of};
ghost use Rattle.udt_cells.specs.Change.{built_of};
ghost use Rattle.negotiation.specs.Replay as replay;
ghost use Rattle.answer_words.specs.Answers.{count_words, cell_words, pick_words, replay_words, request};

use arithmetic::amount;
use error::Refusal;
use funding_cell::{FundingCell, FundingRequest};
use negotiation::{Replayed, Summary};
use transaction_writer::Written;
use udt_cells::UdtInputsOutputs;
use units::Shannons;
use words::WORDS;

fn written_words(n: usize) -> [u64; 1]
    ensures { result ≡ count_words n }
{
    [n as u64]
}

// The answer of a call that writes: how many bytes it wrote.
pub fn tell_written(written: Written, words: &mut [u64; WORDS]) -> u32
    ensures { (result, words.new) ≡ in_words count_words (told written) words.old }
{
    words::tell(written.map(written_words), words)
}

fn found_words(n: u32) -> [u64; 1]
    ensures { result ≡ count_words n }
{
    [u64::from(n)]
}

// A number that a transaction was asked for.
pub fn tell_found(found: Result<u32, Refusal>, words: &mut [u64; WORDS]) -> u32
    ensures { (result, words.new) ≡ in_words count_words (told found) words.old }
{
    words::tell(found.map(found_words), words)
}

fn cell_words(cell: FundingCell) -> [u64; 3]
    ensures { result ≡ cell_words (figures_of cell) }
{
    let FundingCell { capacity, token } = cell;
    [
        amount::low(capacity.0),
        amount::low(token.0),
        amount::high(token.0),
    ]
}

// The funding cell: its capacity and its token amount.
pub fn tell_cell(cell: Result<FundingCell, Refusal>, words: &mut [u64; WORDS]) -> u32
    ensures { (result, words.new) ≡ in_words cell_words (told_by figures_of cell) words.old }
{
    words::tell(cell.map(cell_words), words)
}

fn pick_words(pick: UdtInputsOutputs) -> [u64; 4]
    ensures { result ≡ pick_words (built_of pick) }
{
    [
        pick.taken as u64,
        amount::low(pick.change.0),
        amount::high(pick.change.0),
        amount::low(pick.capacity.0),
    ]
}

// The pick: how many cells, the change, and the capacity of its output.
pub fn tell_pick(pick: Result<UdtInputsOutputs, Refusal>, words: &mut [u64; WORDS]) -> u32
    ensures { (result, words.new) ≡ in_words pick_words (told_by built_of pick) words.old }
{
    words::tell(pick.map(pick_words), words)
}

fn replay_words(summary: Summary) -> [u64; 3]
    ensures { result ≡ replay_words (record { updates = summary.updates; accepted = summary.accepted; at = summary.at }) }
{
    [
        summary.updates as u64,
        summary.accepted as u64,
        summary.at as u64,
    ]
}

// What a list of updates came to: how many they were, how many were accepted, and which transaction is then in force.
pub fn tell_replayed(replayed: Replayed, words: &mut [u64; WORDS]) -> u32
    ensures { (result, words.new) ≡ in_words replay_words (replay.told_replay replayed) words.old }
{
    words::tell(replayed.map(replay_words), words)
}

// The figures of a request, which cross as words.
pub fn request(
    local_low: u64,
    local_high: u64,
    local_reserved: u64,
    remote_low: u64,
    remote_high: u64,
    remote_reserved: u64,
) -> FundingRequest
    ensures { result ≡ request local_low local_high local_reserved remote_low remote_high remote_reserved }
{
    FundingRequest {
        local_amount: amount::from_halves(local_low, local_high),
        local_reserved_ckb_amount: Shannons::from(local_reserved),
        remote_amount: amount::from_halves(remote_low, remote_high),
        remote_reserved_ckb_amount: Shannons::from(remote_reserved),
    }
}
