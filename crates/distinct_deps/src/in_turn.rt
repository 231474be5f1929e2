// The deps chosen one after the other. In `sorted` the chosen places are kept in the order of their deps, so that one more is looked up by halves.
ghost use Rattle.std.specs.Prelude.{min, length};
ghost use Rattle.distinct_deps.specs.Chosen.{ChoosesOf};

use cell_deps::DepLists;
use item_index::ordering::compare;

// Puts a place of each dep, in the order in which they first stand, at the start of `places`, and returns how many there are, or nothing where there are more
// than the two slices have room for. Both slices are work room.
pub fn choose_in_turn(
    lists: DepLists<'_>,
    places: &mut [usize],
    sorted: &mut [usize],
) -> Option<usize>
    ensures { ChoosesOf lists.entry (min (length places.old) (length sorted.old)) places.new result }
{
    let room = places.len().min(sorted.len());
    let mut count = 0;
    for i in 0..lists.dep_count() {
        let x = lists.dep_at(i);
        let found = sorted[..count].binary_search_by(|p| compare(lists.dep_at(*p), x));
        match found {
            Ok(_) => {}
            Err(at) => {
                if room <= count {
                    return None;
                }
                sorted.copy_within(at..count, at + 1);
                sorted[at] = i;
                places[count] = i;
                count += 1;
            }
        }
    }
    Some(count)
}
