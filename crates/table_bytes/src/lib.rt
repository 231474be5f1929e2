// Tables of cells as lent bytes: a count of four bytes, then places of 48: an out point (36), a kind (4), a number (8). This is the list of sized
// items of RFC 0008, with bytes behind it that mean nothing.
#![tactic(auto, using(crate::proofs::Ways::ways))]

ghost use Rattle.std.specs.Prelude.{◌≡◌};
ghost use Rattle.molecule.specs.Write.{put_at, put_end};
ghost use Rattle.table_bytes.specs.Places.{place_of, place_bytes};

use arithmetic::little_endian;
use molecule::write;
use out_points::OutPoint;

// How many bytes a place has.
const PLACE_BYTES: u32 = 48;

// The kind is a number, as it stands in the bytes that cross to C: what kinds there are is for the table that they hold to say.
#[derive(Clone, Copy, Debug, PartialEq, Eq, Hash)]
pub struct Place {
    pub point: OutPoint,
    pub kind: u32,
    pub number: u64,
}

// Place i of a lent table, and zeros beyond its count.
pub fn place_of(s: &[u8], i: usize) -> Place
    ensures { result ≡ place_of s.now i }
{
    let x = molecule::fix_item(s, PLACE_BYTES, i);
    let point = out_points::out_point_at(x, 0);
    let kind = little_endian::u32_at(x, 36);
    let number = little_endian::u64_at(x, 40);
    Place {
        point,
        kind,
        number,
    }
}

// Puts the place at `at`.
pub fn put_place(out: &mut [u8], at: usize, p: Place) -> usize
    ensures out_after { out.new ≡ put_at out.old at (place_bytes p) }
    ensures value { result ≡ put_end out.old at (place_bytes p) }
{
    if out.len().saturating_sub(at) < 48 {
        return at;
    }
    let at = out_points::put_out_point(out, at, p.point);
    let at = write::put_u32(out, at, p.kind);
    write::put_u64(out, at, p.number)
}
