// Copies of a file, damaged or changed.
ghost use Rattle.std.specs.Prelude.{◌≡◌, ◌≤◌, ◌+◌, ◌*◌, ◌/◌, ◌%◌, length, IfOk};
ghost use Rattle.arithmetic.specs.LittleEndian.{u32_at};
ghost use Rattle.molecule.specs.Layout.{part};
ghost use Rattle.molecule.specs.Write.{Put};
ghost use Rattle.recorded_calls.specs.Changes.{change_size, changed_by_bytes, changed_from, place_at, put_changes};

use arithmetic::little_endian;
use molecule::write;
use std::alloc::{AllocError, Global};

// Two places of the file, and the bytes that stand between them instead.
#[derive(Clone, Copy, Debug, PartialEq, Eq)]
struct Change<'a> {
    from: usize,
    to: usize,
    bytes: &'a [u8],
    size: usize,
}

// A place, of whose two bytes each is 0 where it is cut off.
fn place(low: u8, high: u8) -> usize
    ensures { result ≡ low + 256 * high }
{
    usize::from(low) + 256 * usize::from(high)
}

impl<'a> From<&'a [u8]> for Change<'a> {
    fn from(s: &'a [u8]) -> Change<'a>
        ensures from { result.from ≡ place_at s.now 0 }
        ensures to { result.to ≡ place_at s.now 2 }
        ensures bytes { result.bytes.now ≡ part s.now 5 (change_size s.now) }
        ensures size { result.size ≡ change_size s.now }
    {
        let size = 5 + usize::from(little_endian::byte(s, 4));
        Change {
            from: place(little_endian::byte(s, 0), little_endian::byte(s, 1)),
            to: place(little_endian::byte(s, 2), little_endian::byte(s, 3)),
            bytes: molecule::part(s, 5, size),
            size,
        }
    }
}

impl<'a> Change<'a> {
    // The change at the start of s, as `from` reads it, but that both places are 0 where one of their four bytes is cut off.
    fn with_whole_places(s: &'a [u8]) -> Change<'a>
        ensures from { result.from ≡ u32_at s.now 0 % 65536 }
        ensures to { result.to ≡ u32_at s.now 0 / 65536 }
        ensures bytes { result.bytes.now ≡ part s.now 5 (change_size s.now) }
        ensures size { result.size ≡ change_size s.now }
    {
        let places = little_endian::u32_at(s, 0);
        Change {
            from: (places % 0x1_0000) as usize,
            to: (places / 0x1_0000) as usize,
            ..Change::from(s)
        }
    }
}

// The file with so many changes. Of one whose places are cut off both are 0.
#[tactic(auto, unfolding(crate::specs::Changes::changed_from))]
pub fn changed(alloc: Global, file: &[u8], count: u8, changes: &[u8]) -> Result<Vec<u8>, AllocError>
    ensures { IfOk result (λ v. v.items ≡ changed_from file.now 0 count changes.now) }
{
    let mut copy = Vec::new(alloc);
    let mut next = 0;
    let mut rest = changes;
    for _ in 0..count {
        let change = Change::with_whole_places(rest);
        copy.extend_from_slice(molecule::part(file, next, change.from))?;
        copy.extend_from_slice(change.bytes)?;
        next = change.to;
        rest = molecule::part(rest, change.size, rest.len());
    }
    copy.extend_from_slice(molecule::part(file, next, file.len()))?;
    Ok(copy)
}

// Puts the file with so many changes to the start of the room, and answers how long it is. A stretch of it for which there is no room is left out.
#[tactic(auto, unfolding(crate::specs::Changes::put_changes))]
pub fn put_changed(room: &mut [u8], file: &[u8], count: u8, changes: &[u8]) -> usize
    ensures room { room.new ≡ (put_changes room.old 0 file.now 0 count changes.now).0 }
    ensures value { result ≡ (put_changes room.old 0 file.now 0 count changes.now).1 }
    ensures whole { length (changed_by_bytes file.now 0 count changes.now) ≤ length room.old →
        Put room.old 0 (changed_by_bytes file.now 0 count changes.now) room.new result }
{
    let mut at = 0;
    let mut from = 0;
    let mut rest = changes;
    for _ in 0..count {
        let change = Change::from(rest);
        at = write::put(room, at, molecule::part(file, from, change.from));
        at = write::put(room, at, change.bytes);
        from = change.to;
        rest = molecule::part(rest, change.size, rest.len());
    }
    write::put(room, at, molecule::part(file, from, file.len()))
}
