// The items of a dynvec, in order.
ghost use Rattle.std.specs.Prelude.{◌≡◌};
ghost use Rattle.std.specs.Iterator.{YieldsFirstRef, item_count};
ghost use Rattle.molecule.specs.Layout.{items_of};
ghost use Rattle.recorded_calls.specs.Items.{items_left};

#[derive(Clone, Copy, Debug, PartialEq, Eq)]
pub struct Items<'a> {
    list: &'a [u8],
    next: u32,
    count: u32,
}

impl<'a> Items<'a> {
    pub fn of(list: &'a [u8]) -> Items<'a>
        ensures { items_left result ≡ items_of list.now }
    {
        Items {
            list,
            next: 0,
            count: molecule::item_count(list),
        }
    }
}

impl<'a> Iterator for Items<'a> {
    type Item = &'a [u8];

    ghost next_gives = { YieldsFirstRef items_left };

    ghost remaining = { item_count items_left };

    #[tactic(auto, unfolding(molecule::specs::Layout::span))]
    fn next(&mut self) -> Option<&'a [u8]> {
        if self.next >= self.count {
            return None;
        }
        let item = molecule::item(self.list, self.next as usize);
        self.next += 1;
        Some(item)
    }
}
