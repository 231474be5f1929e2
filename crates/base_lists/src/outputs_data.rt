// The data of the outputs.
ghost use Rattle.std.specs.Prelude.{◌≡◌, ℕ, min, cond, length, is_some};
ghost use Rattle.molecule.specs.Items.{join};
ghost use Rattle.units.specs.Units.{token_count};
ghost use Rattle.list_writer.specs.ListWriter.{if_positive, put_list, put_list_end};
ghost use Rattle.list_writer.specs.Around.{around};
ghost use Rattle.base_lists.specs.BaseLists.{amount_item, data_list};
ghost use Rattle.base_lists.specs.Parts.{data_bytes};

use list_writer::{Later, Lengths, Parts};
use units::Tokens;

// An amount as a cell's data: a length of 16, and so many bytes.
fn amount_item(t: Tokens) -> [u8; 20]
    ensures { result ≡ amount_item (token_count t) }
{
    let b = t.0.to_le_bytes();
    [
        16, 0, 0, 0, b[0], b[1], b[2], b[3], b[4], b[5], b[6], b[7], b[8], b[9], b[10], b[11],
        b[12], b[13], b[14], b[15],
    ]
}

// The funding cell's tokens, if it is typed, and else no data; the entries of the present transaction after its first, each empty where it is missing; and the
// change's tokens, unless they are 0. A typed cell of 0 tokens has data, so `tokens` is an `Option`; a change of 0 is none by the rules, so `change` needs
// none.
#[derive(Clone, Copy, Debug, PartialEq, Eq)]
pub struct OutputsData<'a> {
    pub tokens: Option<Tokens>,
    pub present: Later<'a>,
    pub change: Tokens,
}

impl OutputsData<'_> {
    // How many bytes the funding cell's data has in the list.
    fn first_len(self) -> usize
        ensures { result ≡ cond (is_some self.entry.tokens) 20 4 }
    {
        if self.tokens.is_some() { 20 } else { 4 }
    }

    // How many the change's has; a change of 0 has none.
    fn change_len(self) -> usize
        ensures { result ≡ length (if_positive (token_count self.entry.change) (amount_item (token_count self.entry.change))) }
    {
        if self.change == Tokens::ZERO { 0 } else { 20 }
    }

    // How long the list is, whatever the funding cell's tokens are.
    pub fn len(self) -> usize
        ensures { (tokens : ℕ) → result
            ≡ min (length (join (data_list (is_some self.entry.tokens) tokens self.entry.present.list.now self.entry.present.count
            (token_count self.entry.change)))) 133117 }
    {
        let lengths = Lengths {
            first: self.first_len(),
            items: self.present,
            last: self.change_len(),
        };
        lengths.total()
    }

    // Puts the list behind its first item.
    fn put_behind(self, out: &mut [u8], at: usize, first: &[u8]) -> usize
        ensures out_after { out.new
            ≡ put_list out.old at (around first.now self.entry.present.list.now self.entry.present.count
            (if_positive (token_count self.entry.change) (amount_item (token_count self.entry.change)))) }
        ensures value { result
            ≡ put_list_end out.old at (around first.now self.entry.present.list.now self.entry.present.count
            (if_positive (token_count self.entry.change) (amount_item (token_count self.entry.change)))) }
    {
        if self.change == Tokens::ZERO {
            let list = Parts {
                first: &[first],
                items: self.present,
                last: &[],
            };
            return list.put(out, at);
        }
        let list = Parts {
            first: &[first],
            items: self.present,
            last: &[&amount_item(self.change)],
        };
        list.put(out, at)
    }

    // Puts the list.
    pub fn put(self, out: &mut [u8], at: usize) -> usize
        ensures out_after { out.new ≡ put_list out.old at (data_bytes self.entry) }
        ensures value { result ≡ put_list_end out.old at (data_bytes self.entry) }
    {
        match self.tokens {
            Some(tokens) => self.put_behind(out, at, &amount_item(tokens)),
            None => self.put_behind(out, at, &[0, 0, 0, 0]),
        }
    }
}
