// Runs recorded calls on the table of holds through the library. They come on standard input, in the form that tools/recorded_tables.py
// describes, in sequences that each start from the empty table. A call is wrong if the library answers it by another number than is recorded, writes other
// lists, touches a lent byte behind them, or leaves another table.
#![tactic(auto)]

use arithmetic::little_endian;
use error::Refusal;
use hold_records::{Held, Hold, Owner, Taker};
use recorded_calls::{Call, FILL, InfallibleTable};
use std::fmt;
use units::Millis;

// How long a lent list is at most. A call that lends more than that is not run, and answers as one that is done.
const LIST_ROOM: usize = 20_000;

// ---- the calls

// By their numbers.
#[derive(Clone, Copy, Debug, PartialEq, Eq)]
enum Kind {
    Start,
    HoldFunding,
    HoldForWatchtower,
    TakeForHolder,
    TakeForWatchtower,
    ReleaseForWatchtower,
    Unavailable,
    LockHeld,
}

impl Kind {
    const ALL: [Kind; 8] = [
        Kind::Start,
        Kind::HoldFunding,
        Kind::HoldForWatchtower,
        Kind::TakeForHolder,
        Kind::TakeForWatchtower,
        Kind::ReleaseForWatchtower,
        Kind::Unavailable,
        Kind::LockHeld,
    ];
}

// A call of no known kind is run as the last one.
impl From<u8> for Kind {
    fn from(number: u8) -> Kind {
        Kind::ALL
            .get(usize::from(number))
            .copied()
            .unwrap_or(Kind::LockHeld)
    }
}

impl fmt::Display for Kind {
    fn fmt<W: fmt::Write>(&self, f: &mut fmt::Formatter<W>) -> fmt::Result {
        f.write_str(match self {
            Kind::Start => "start",
            Kind::HoldFunding => "hold_funding",
            Kind::HoldForWatchtower => "hold_for_watchtower",
            Kind::TakeForHolder => "take for a holder",
            Kind::TakeForWatchtower => "take for the watchtower",
            Kind::ReleaseForWatchtower => "release_for_watchtower",
            Kind::Unavailable => "unavailable",
            Kind::LockHeld => "lock_held",
        })
    }
}

// ---- one call

fn take(
    held: Held,
    call: &Call<'_>,
    taker: Taker,
    first: &mut [u8],
    second: &mut [u8],
) -> Result<Held, Refusal> {
    let [_, now] = call.numbers;
    let [cells, spent] = call.lent;
    let [room, second_room] = call.rooms;
    let Some(taken) = first.get_mut(..room) else {
        return Ok(held);
    };
    let Some(refused) = second.get_mut(..second_room) else {
        return Ok(held);
    };
    held_cells::take(held, cells, spent, taker, Millis(now), taken, refused)
}

fn unavailable(held: Held, call: &Call<'_>, first: &mut [u8]) -> Result<Held, Refusal> {
    let [_, now] = call.numbers;
    let [cells, spent] = call.lent;
    let [room, _] = call.rooms;
    if let Some(out) = first.get_mut(..room) {
        held_cells::unavailable(held, cells, spent, Millis(now), out)?;
    }
    Ok(held)
}

fn lock_held(held: Held, call: &Call<'_>, first: &mut [u8]) -> Result<Held, Refusal> {
    let [_, now] = call.numbers;
    let [room, _] = call.rooms;
    match first.get_mut(..room) {
        Some(out) => held_cells::lock_held(held, Millis(now), out),
        None => Ok(held),
    }
}

// The table after the call.
fn answer(
    held: Held,
    call: &Call<'_>,
    first: &mut [u8],
    second: &mut [u8],
) -> Result<Held, Refusal> {
    let [holder, now] = call.numbers;
    let now = Millis(now);
    let [cells, _] = call.lent;
    match Kind::from(call.kind) {
        Kind::Start => Ok(hold_records::empty()),
        Kind::HoldFunding => held_cells::hold_funding(held, holder, cells),
        Kind::HoldForWatchtower => watchtower_holds::hold_for_watchtower(held, cells, now),
        Kind::TakeForHolder => take(held, call, Taker::Funding(holder), first, second),
        Kind::TakeForWatchtower => take(held, call, Taker::Watchtower, first, second),
        Kind::ReleaseForWatchtower => watchtower_holds::release_for_watchtower(held, cells),
        Kind::Unavailable => unavailable(held, call, first),
        Kind::LockHeld => lock_held(held, call, first),
    }
}

// Runs the call, and answers its number.
fn run(held: &mut Held, call: &Call<'_>, first: &mut [u8], second: &mut [u8]) -> u8 {
    match answer(*held, call, first, second) {
        Ok(after) => {
            *held = after;
            0
        }
        Err(why) => why.number(),
    }
}

// ---- what it comes to

// The kind and the number under which an owner is recorded.
fn recorded(owner: Owner) -> (u8, u64) {
    match owner {
        Owner::Funding(holder) => (0, holder),
        Owner::Watchtower(end) => (1, end.0),
    }
}

fn is_record(hold: &Hold, item: &[u8], points: &[u8], i: usize) -> bool {
    let (kind, number) = recorded(hold.owner);
    kind == little_endian::byte(item, 0)
        && number == little_endian::u64_at(item, 1)
        && hold.point == out_points::point_of(points, i)
}

// Whether the table has these records, in this order, and no others.
fn is_table(held: &Held, owners: &[u8], points: &[u8]) -> bool {
    let n = molecule::fix_count(owners) as usize;
    held.count == n
        && n <= held.records.len()
        && held.records.iter().take(n).enumerate().all(|(i, hold)| is_record(
            hold,
            molecule::fix_item(owners, 9, i),
            points,
            i,
        ))
}

// No ==: `Held` has none.
#[derive(Debug, Drop)]
struct Holds {
    held: Held,
}

impl InfallibleTable for Holds {
    fn empty() -> Holds {
        Holds {
            held: hold_records::empty(),
        }
    }

    fn is_right(&mut self, call: &Call<'_>) -> bool {
        let mut first = [FILL; LIST_ROOM];
        let mut second = [FILL; LIST_ROOM];
        let number = run(&mut self.held, call, &mut first, &mut second);
        let [room, second_room] = call.rooms;
        let [first_list, second_list] = call.written;
        let [owners, points] = call.table;
        number == call.answer
            && recorded_calls::is_written_to(&first, room, first_list)
            && recorded_calls::is_written_to(&second, second_room, second_list)
            && is_table(&self.held, owners, points)
    }
}

fn main() {
    recorded_calls::replay_stdin_calls::<Holds, _>(&Kind::ALL);
}
