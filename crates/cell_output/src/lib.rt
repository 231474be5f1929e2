// Writes an output: the table of its capacity, its lock, and its type or nothing.
#![tactic(auto, using(crate::proofs::Ways::ways))]

ghost use Rattle.std.specs.Prelude.{◌≡◌, ◌+◌, nat_le};
ghost use Rattle.units.specs.Units.{shannon_count};
ghost use Rattle.molecule.specs.Write.{put_at, put_end};
ghost use Rattle.cell_output.specs.CellOutput.{cell_output, output_head};

use units::Shannons;

// The size, three offsets, and the capacity.
const HEAD_BYTES: usize = 24;

// Whether an output with a lock and a type of so many bytes ends within `room` from `at` on: by subtraction, since the sum may not fit.
#[tactic(auto, using(std::proofs::lemmas::Bool::Decides::nat_tests))]
pub fn has_room(room: usize, at: usize, lock: usize, udt: usize) -> bool
    ensures { result ≡ nat_le (at + (24 + lock + udt)) room }
{
    at <= room
        && HEAD_BYTES <= room - at
        && lock <= room - at - HEAD_BYTES
        && udt <= room - at - HEAD_BYTES - lock
}

// What stands before the lock, by the lengths of lock and type. The size and the offsets are modulo 2^32, as four bytes hold them, and the capacity
// is modulo 2^64.
pub fn output_head(capacity: Shannons, lock: usize, udt: usize) -> [u8; 24]
    ensures { result ≡ output_head (shannon_count capacity) lock udt }
{
    let before_type = HEAD_BYTES.wrapping_add(lock);
    let size = before_type.wrapping_add(udt).to_le_bytes();
    let third = before_type.to_le_bytes();
    let amount = capacity.0.to_le_bytes();
    [
        size[0], size[1], size[2], size[3], 16, 0, 0, 0, 24, 0, 0, 0, third[0], third[1], third[2],
        third[3], amount[0], amount[1], amount[2], amount[3], amount[4], amount[5], amount[6],
        amount[7],
    ]
}

// Puts an output at `at`, and answers the place after it; where there is no room for all of it nothing is written. An empty type is none.
pub fn put_cell_output(
    out: &mut [u8],
    at: usize,
    capacity: Shannons,
    lock: &[u8],
    udt: &[u8],
) -> usize
    ensures out_after { out.new ≡ put_at out.old at (cell_output (shannon_count capacity) lock.now udt.now) }
    ensures value { result ≡ put_end out.old at (cell_output (shannon_count capacity) lock.now udt.now) }
{
    let head = output_head(capacity, lock.len(), udt.len());
    list_writer::put_all(out, at, &[&head, lock, udt])
}
