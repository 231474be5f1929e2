// The witnesses: the placeholder of a signature for the first input, and for the first picked one behind present inputs.
ghost use Rattle.std.specs.Prelude.{◌≡◌, min, length};
ghost use Rattle.list_writer.specs.ListWriter.{put_list, put_list_end};
ghost use Rattle.base_lists.specs.BaseLists.{placeholder};
ghost use Rattle.base_lists.specs.Parts.{witness_bytes, between};

use list_writer::{Later, Lengths, Parts};

// Six numbers (how long the witness args are, their size, three offsets, how long the lock is), and 65 zero bytes.
const PLACEHOLDER: [u8; 89] = [
    85, 0, 0, 0, 85, 0, 0, 0, 16, 0, 0, 0, 85, 0, 0, 0, 85, 0, 0, 0, 65, 0, 0, 0, 0, 0, 0, 0, 0, 0,
    0, 0, 0, 0, 0, 0, 0, 0, 0, 0, 0, 0, 0, 0, 0, 0, 0, 0, 0, 0, 0, 0, 0, 0, 0, 0, 0, 0, 0, 0, 0, 0,
    0, 0, 0, 0, 0, 0, 0, 0, 0, 0, 0, 0, 0, 0, 0, 0, 0, 0, 0, 0, 0, 0, 0, 0, 0, 0, 0,
];

// The constant, as a function, so that it is proved.
fn placeholder() -> [u8; 89]
    ensures { result ≡ placeholder }
{
    PLACEHOLDER
}

// By how many inputs are present and how many are picked.
#[derive(Clone, Copy, Debug, PartialEq, Eq, Hash)]
pub struct Witnesses {
    pub present: usize,
    pub picked: usize,
}

impl Witnesses {
    // How many empty witnesses stand between the two placeholders, where inputs are picked behind present ones. Else there is one placeholder.
    #[tactic(auto, using(std::proofs::lemmas::Bool::Decides::nat_tests), unfolding(crate::specs::Parts::between))]
    fn between(self) -> Option<usize>
        ensures { result ≡ between self.present self.picked }
    {
        if self.present == 0 || self.picked == 0 {
            return None;
        }
        Some(self.present - 1)
    }

    // How long the witnesses are.
    pub fn len(self) -> usize
        ensures { result ≡ min (length (witness_bytes self)) 133117 }
    {
        let list = &[];
        match self.between() {
            None => {
                let lengths = Lengths {
                    first: 89,
                    items: Later { list, count: 0 },
                    last: 0,
                };
                lengths.total()
            }
            Some(count) => {
                let lengths = Lengths {
                    first: 89,
                    items: Later { list, count },
                    last: 89,
                };
                lengths.total()
            }
        }
    }

    // Puts the witnesses. Those between the two placeholders are empty, as the later items of no list are.
    pub fn put(self, out: &mut [u8], at: usize) -> usize
        ensures out_after { out.new ≡ put_list out.old at (witness_bytes self) }
        ensures value { result ≡ put_list_end out.old at (witness_bytes self) }
    {
        let mark = placeholder();
        let list = &[];
        match self.between() {
            None => {
                let parts = Parts {
                    first: &[&mark],
                    items: Later { list, count: 0 },
                    last: &[],
                };
                parts.put(out, at)
            }
            Some(count) => {
                let parts = Parts {
                    first: &[&mark],
                    items: Later { list, count },
                    last: &[&mark],
                };
                parts.put(out, at)
            }
        }
    }
}
