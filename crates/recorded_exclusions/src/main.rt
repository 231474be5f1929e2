// Runs recorded calls on the exclusion map through the library. They come on standard input, in the form that tools/recorded_tables.py describes, in
// sequences that each start from the empty map. A call is wrong if the library answers it by another number than is recorded, writes another list, touches
// a lent byte behind it, leaves other entries in the lent map, or refuses and leaves another byte there than before.
#![tactic(auto)]

use arithmetic::little_endian;
use error::Answer;
use exclusion_entries::MAP_BYTES;
use recorded_calls::{Call, FILL, InfallibleTable};
use std::fmt;
use units::BlockNumber;

// How long a lent list is at most. A call that lends more than that is not run, and answers as one that is done.
const LIST_ROOM: usize = 20_000;

// ---- the calls

// By their numbers.
#[derive(Clone, Copy, Debug, PartialEq, Eq)]
enum Kind {
    Start,
    Add,
    Commit,
    Remove,
    MigrateFundingTx,
    Truncate,
    Apply,
}

impl Kind {
    const ALL: [Kind; 7] = [
        Kind::Start,
        Kind::Add,
        Kind::Commit,
        Kind::Remove,
        Kind::MigrateFundingTx,
        Kind::Truncate,
        Kind::Apply,
    ];
}

// A call of no known kind starts a sequence.
impl From<u8> for Kind {
    fn from(number: u8) -> Kind {
        Kind::ALL
            .get(usize::from(number))
            .copied()
            .unwrap_or(Kind::Start)
    }
}

impl fmt::Display for Kind {
    fn fmt<W: fmt::Write>(&self, f: &mut fmt::Formatter<W>) -> fmt::Result {
        f.write_str(match self {
            Kind::Start => "start",
            Kind::Add => "add",
            Kind::Commit => "commit",
            Kind::Remove => "remove",
            Kind::MigrateFundingTx => "migrate_funding_tx",
            Kind::Truncate => "truncate",
            Kind::Apply => "apply",
        })
    }
}

// ---- one call

// Zeros are the empty map.
fn start(map: &mut [u8]) -> Answer {
    map.fill(0);
    Ok(())
}

fn apply(map: &[u8], call: &Call<'_>, list: &mut [u8]) -> Answer {
    let [room, _] = call.rooms;
    match list.get_mut(..room) {
        Some(out) => exclusion_marks::apply(map, out),
        None => Ok(()),
    }
}

fn answer(map: &mut [u8], call: &Call<'_>, list: &mut [u8]) -> Answer {
    let [hash, new_hash] = call.lent;
    let [block, _] = call.numbers;
    match Kind::from(call.kind) {
        Kind::Add => exclusions::add(map, hash, call.tx),
        Kind::Commit => exclusion_marks::commit(map, hash, BlockNumber(block)),
        Kind::Remove => exclusions::remove(map, hash),
        Kind::MigrateFundingTx => exclusions::migrate_funding_tx(map, hash, new_hash, call.tx),
        Kind::Truncate => exclusions::truncate(map, BlockNumber(block)),
        Kind::Apply => apply(map, call, list),
        Kind::Start => start(map),
    }
}

// Runs the call, and answers its number.
fn run(map: &mut [u8], call: &Call<'_>, list: &mut [u8]) -> u8 {
    error::number(answer(map, call, list))
}

// ---- what it comes to

// Whether the row is that of the entry at the start of x: 0 or 1 for its kind, its hash and its block.
fn is_entry(row: &[u8], x: &[u8]) -> bool {
    u32::from(little_endian::byte(row, 0)) == little_endian::u32_at(x, 32)
        && little_endian::u64_at(row, 33) == little_endian::u64_at(x, 36)
        && molecule::part(row, 1, 33) == molecule::part(x, 0, 32)
}

// Whether the row is that of an out point: 2 and the out point.
fn is_point(row: &[u8], point: &[u8]) -> bool {
    little_endian::byte(row, 0) == 2 && molecule::part(row, 1, 37) == point
}

// Whether the rows from k on are those of a list of out points.
fn are_points(rows: &[u8], k: usize, list: &[u8]) -> bool {
    (0..molecule::fix_count(list) as usize).all(|i| {
        let row = molecule::fix_item(rows, 41, k.saturating_add(i));
        is_point(row, molecule::fix_item(list, 36, i))
    })
}

// Whether the entries of the map have these rows, in this order, and no others.
fn is_map(map: &[u8], rows: &[u8]) -> bool {
    let mut rest = molecule::content(map);
    let mut k = 0usize;
    for _ in 0..molecule::fix_count(map) {
        let list = molecule::part(rest, 44, rest.len());
        let n = molecule::fix_count(list) as usize;
        if !is_entry(molecule::fix_item(rows, 41, k), rest) {
            return false;
        }
        if !are_points(rows, k.saturating_add(1), list) {
            return false;
        }
        k = k.saturating_add(1 + n);
        rest = molecule::part(rest, 48 + 36 * n, rest.len());
    }
    k == molecule::fix_count(rows) as usize
}

#[derive(Debug, Drop, PartialEq, Eq)]
struct Map {
    bytes: [u8; MAP_BYTES],
}

impl InfallibleTable for Map {
    fn empty() -> Map {
        Map {
            bytes: recorded_calls::zeros(),
        }
    }

    fn is_right(&mut self, call: &Call<'_>) -> bool {
        let before = self.bytes;
        let [room, _] = call.rooms;
        let [written, _] = call.written;
        let [entries, _] = call.table;
        let mut list = [FILL; LIST_ROOM];
        let number = run(&mut self.bytes, call, &mut list);
        number == call.answer
            && (number == 0 || self.bytes == before)
            && recorded_calls::is_written_to(&list, room, written)
            && is_map(&self.bytes, entries)
    }
}

fn main() {
    recorded_calls::replay_stdin_calls::<Map, _>(&Kind::ALL);
}
