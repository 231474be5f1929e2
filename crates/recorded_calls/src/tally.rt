// Counts of what was replayed.
ghost use Rattle.std.specs.Prelude.{◌≡◌, ◌≢◌, ℕ, ◌+◌, ◌<◌, replicate, slice_index_or, Some, None};
ghost use Rattle.recorded_calls.specs.Tally.{added, counted, one_more, one_wrong, total};
ghost use Rattle.recorded_calls.specs.declared.tally.Tally.{Tally};

// How many there are, and how many of them are wrong.
#[derive(Clone, Copy, Debug, Default, PartialEq, Eq)]
pub struct Tally {
    pub all: u64,
    pub wrong: u64,
}

impl Tally {
    pub fn count(&mut self, right: bool)
        ensures { self.new ≡ counted self.old right }
    {
        self.add(Tally {
            all: 1,
            wrong: u64::from(!right),
        });
    }

    pub fn add(&mut self, other: Tally)
        ensures { self.new ≡ added self.old other }
    {
        self.all = self.all.saturating_add(other.all);
        self.wrong = self.wrong.saturating_add(other.wrong);
    }
}

// A tally for each number below N.
#[derive(Clone, Copy, Debug, PartialEq, Eq)]
pub struct Tallies<const N: usize> {
    pub of: [Tally; N],
}

impl<const N: usize> Tallies<N> {
    pub fn new() -> Tallies<N>
        ensures { result.of ≡ replicate N (record { all = 0; wrong = 0 }) }
    {
        Tallies {
            of: [Tally { all: 0, wrong: 0 }; N],
        }
    }

    // Counts under i, if that is a number below N.
    pub fn count(&mut self, i: usize, right: bool)
        ensures counts { (d : Tally) → i < N → slice_index_or self.new.of i d ≡ counted (slice_index_or self.old.of i d) right }
        ensures others { (k : ℕ) (d : Tally) → k ≢ i → slice_index_or self.new.of k d ≡ slice_index_or self.old.of k d }
    {
        if i < N {
            let mut tally = self.of[i];
            tally.count(right);
            self.of[i] = tally;
        }
    }

    // One more at a place of the row in which the numbers' counts stand, those of all and then those of the wrong ones. What is answered of a place behind them
    // is how far behind it stands.
    pub fn raise(&mut self, place: usize) -> Option<usize>
        ensures all { (d : Tally) → place < N → slice_index_or self.new.of place d ≡ one_more (slice_index_or self.old.of place d) }
        ensures wrong { (k : ℕ) (d : Tally) → place ≡ N + k → k < N → slice_index_or self.new.of k d ≡ one_wrong (slice_index_or self.old.of k d) }
        ensures others { (k : ℕ) (d : Tally) → place ≢ k → place ≢ N + k → slice_index_or self.new.of k d ≡ slice_index_or self.old.of k d }
        ensures within { place < N + N → result ≡ None }
        ensures behind { (k : ℕ) → place ≡ N + N + k → result ≡ Some k }
    {
        if place < N {
            self.of[place].add(Tally { all: 1, wrong: 0 });
            return None;
        }
        let i = place - N;
        if i < N {
            self.of[i].add(Tally { all: 0, wrong: 1 });
            return None;
        }
        Some(i - N)
    }

    #[tactic(auto, unfolding(crate::specs::Tally::total))]
    pub fn sum(&self) -> Tally
        ensures { result ≡ total (record { all = 0; wrong = 0 }) self.now.of }
    {
        let mut sum = Tally::default();
        for tally in &self.of {
            sum.add(*tally);
        }
        sum
    }
}
