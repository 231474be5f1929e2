// How an answer crosses to C: a number, and the words that it has to tell at the start of four that are lent. All other words keep their value.
#![tactic(auto, using(crate::proofs::Ways::ways), unfolding(crate::proofs::Ways::telling))]

ghost use Rattle.std.specs.Prelude.{◌≡◌, ◌≤◌, length};
ghost use Rattle.error.specs.Refusal.{number, values};
ghost use Rattle.error.specs.Outcome.{told_by};
ghost use Rattle.rules.specs.Told.{told, figures};
ghost use Rattle.words.specs.Words.{set_words, in_words, surplus_words};

use arithmetic::amount;
use error::Refusal;
use rules::{Surplus, Update};

// How many words are lent: no answer has more to tell.
pub const WORDS: usize = 4;

// Sets the first words, as many as there are values, and answers the number.
pub fn set(words: &mut [u64; WORDS], number: u32, values: &[u64]) -> u32
    ensures { length values.now ≤ 4 → (result, words.new) ≡ set_words number values.now words.old }
{
    let n = values.len();
    if n <= WORDS {
        words[..n].copy_from_slice(values);
    }
    number
}

// A refusal: its number, and the values that it carries.
pub fn tell_refusal(why: Refusal, words: &mut [u64; WORDS]) -> u32
    ensures { (result, words.new) ≡ set_words (number why) (values why) words.old }
{
    let values = [why.value(0), why.value(1), why.value(2), why.value(3)];
    let count = why.value_count();
    set(words, u32::from(why.number()), &values[..count])
}

// An answer of so many words, or a refusal.
pub fn tell<const N: usize>(answer: Result<[u64; N], Refusal>, words: &mut [u64; WORDS]) -> u32
    ensures { N ≤ 4 → (result, words.new) ≡ in_words (λ l. l) (told_by (λ l. l) answer.entry) words.old }
{
    match answer {
        Ok(values) => set(words, 0, &values),
        Err(why) => tell_refusal(why, words),
    }
}

// The surplus of capacity and that of the token, the low half of each first.
fn surplus_words(surplus: Surplus) -> [u64; WORDS]
    ensures { result ≡ surplus_words (figures surplus) }
{
    let Surplus { capacity, token } = surplus;
    [
        amount::low(capacity.0),
        amount::high(capacity.0),
        amount::low(token.0),
        amount::high(token.0),
    ]
}

// The answer of an update: an acceptance has its surplus to tell.
pub fn tell_update(update: Update, words: &mut [u64; WORDS]) -> u32
    ensures { (result, words.new) ≡ in_words surplus_words (told update) words.old }
{
    tell(update.map(surplus_words), words)
}
