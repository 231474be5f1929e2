// A list of updates judged one after another, from C.
ghost use Rattle.std.specs.Prelude.{◌≡◌, length, get_or};
ghost use Rattle.negotiation.specs.Replay.{replay_of, after_replay};
ghost use Rattle.negotiation.specs.Law.{LawfulReplay};
ghost use Rattle.words.specs.Words.{writing};
ghost use Rattle.answer_words.specs.Answers.{replay_words};

use negotiation::Negotiation;
use words::WORDS;

// Judges a list of updates, each against the transaction that the one before it left in force.
#[unsafe(no_mangle)]
pub extern "C" fn basinpantry_replay<'a>(
    start: &'a [u8],
    lock: &[u8],
    udt: &[u8],
    updates: &'a [u8],
    answers: &mut [u64],
    values: &mut [u64; WORDS],
) -> u32
    ensures answers_after { ((result, values.new), answers.new)
        ≡ writing replay_words (after_replay (replay_of lock.now udt.now start.now updates.now (length answers.old)) answers.old) values.old }
    ensures lawful { result ≡ 0
        → LawfulReplay lock.now udt.now start.now updates.now answers.old (get_or values.new 0 0) (get_or values.new 1 0) (get_or values.new 2 0) answers.new }
{
    let negotiation = Negotiation {
        start,
        lock,
        udt,
        updates,
    };
    answer_words::tell_replayed(negotiation.replay(answers), values)
}
