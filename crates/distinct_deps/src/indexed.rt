// A list of deps with its index, by which a dep is looked up.
ghost use Rattle.std.specs.Prelude.{◌≡◌, eqb, ◌≤◌, ◌<◌, length};
ghost use Rattle.molecule.specs.Layout.{span, fix_count, fix_item};
ghost use Rattle.lists.specs.Lists.{contains};
ghost use Rattle.item_index.specs.Index.{place_in};
ghost use Rattle.distinct_deps.specs.Listed.{Listed, keys_in};

use crate::ROOM;
use cell_deps::CELL_DEP_BYTES;
use item_index::Keys;

// The deps of a list as keys.
fn keys(list: &[u8]) -> Keys<'_>
    ensures { result ≡ keys_in list.entry }
{
    Keys {
        items: list,
        size: CELL_DEP_BYTES,
        skip: 0,
    }
}

// A list of deps, with its index.
#[derive(Clone, Copy, Debug, PartialEq, Eq)]
pub(crate) struct Indexed<'a> {
    pub(crate) list: &'a [u8],
    index: &'a [u32],
    ghost is_index: { Listed list.now index.now },
}

impl<'a> Indexed<'a> {
    // Makes the index, at the start of `room`.
    pub(crate) fn of(list: &'a [u8], room: &'a mut [u32]) -> Indexed<'a>
        requires list_bound { fix_count list.now ≤ 3600 }
        requires list_in_bounds { fix_count list.now ≤ length room.old }
        ensures { result.list ≡ list.entry }
    {
        let mut work = [0u32; ROOM];
        let n = molecule::fix_count(list);
        keys(list).build(n, room, &mut work);
        let index = &room[..n as usize];
        Indexed { list, index }
    }

    // Whether x is among the deps.
    pub(crate) fn has(self, x: &[u8]) -> bool
        ensures { result ≡ contains x.now (span (fix_item self.entry.list.now 37) 0 (fix_count self.entry.list.now)) }
    {
        keys(self.list).has(self.index, x)
    }

    // Whether x first stands at place i.
    pub(crate) fn is_first(self, i: usize, x: &[u8]) -> bool
        requires { i < fix_count self.list.now }
        ensures { result ≡ eqb (place_in x.now (span (fix_item self.entry.list.now 37) 0 (fix_count self.entry.list.now))) i }
    {
        keys(self.list).place_of(self.index, x) == Some(i)
    }
}
