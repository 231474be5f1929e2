// Runs recorded requests of our own side through the library. They come on standard input, in the form that tools/recorded_requests.py describes. A
// request is wrong if the library answers it by another number than is recorded, writes another transaction, or touches a lent byte behind it; and
// so are a funding cell and a pick with another number, other figures or another change output.
#![tactic(auto)]

use arithmetic::little_endian;
use funding_builder::Lent;
use funding_cell::FundingRequest;
use recorded_calls::{FILL, InfallibleReplay, Items, Printed, Tallies};
use std::fmt;
use std::fmt::Write;
use units::{Shannons, Tokens};

// How long a part is at most together with the first one.
const LONGEST: usize = 600_000;

// How long a lent buffer is at most. A request that lends more than that is not run, and answers as one that writes nothing.
const BUFFER_ROOM: usize = 133_200;

// As many as there are numbers of answers.
const NUMBERS: usize = 14;

// The counts: by number, and behind these of all.
const COUNTS: usize = NUMBERS + 1;

// ---- a request

// What an answer tells, or its number: the recording has the number alone, and no values to make a refusal of.
type Told<T> = Result<T, u8>;

// A request, how long the lent buffer is, and what is lent; and what is recorded: of the base transaction how long it is and its bytes, of the funding cell
// capacity and tokens, and of the pick how many cells are taken, the change, and the capacity and the bytes of its output.
#[derive(Clone, Copy, Debug, PartialEq, Eq)]
struct Request<'a> {
    figures: FundingRequest,
    room: usize,
    lent: Lent<'a>,
    number: u8,
    base: Told<usize>,
    transaction: &'a [u8],
    cell: Told<(u128, u128)>,
    pick: Told<(usize, u128, u128)>,
    output: &'a [u8],
}

// The number of 16 bytes at `at`.
fn u128_at(head: &[u8], at: usize) -> u128 {
    recorded_calls::u128_of(molecule::part(head, at, at.saturating_add(16)))
}

fn shannons_at(head: &[u8], at: usize) -> Shannons {
    Shannons::from(little_endian::u64_at(head, at))
}

fn told<T: Copy>(number: u8, figures: T) -> Told<T> {
    if number == 0 {
        Ok(figures)
    } else {
        Err(number)
    }
}

impl<'a> From<&'a [u8]> for Request<'a> {
    fn from(call: &'a [u8]) -> Request<'a> {
        let head = molecule::field(call, 11, 0);
        let number = little_endian::byte(head, 0);
        let transaction = molecule::field(call, 11, 9);
        let cell = (
            u128::from(little_endian::u64_at(head, 56)),
            u128_at(head, 64),
        );
        let taken = little_endian::u32_at(head, 80) as usize;
        let change = u128_at(head, 84);
        let capacity = u128::from(little_endian::u64_at(head, 100));
        Request {
            figures: FundingRequest {
                local_amount: u128_at(head, 4),
                local_reserved_ckb_amount: shannons_at(head, 36),
                remote_amount: u128_at(head, 20),
                remote_reserved_ckb_amount: shannons_at(head, 44),
            },
            room: little_endian::u32_at(head, 52) as usize,
            lent: Lent {
                ours: molecule::field(call, 11, 1),
                lock: molecule::field(call, 11, 2),
                udt: molecule::field(call, 11, 3),
                source: molecule::field(call, 11, 4),
                cells: molecule::field(call, 11, 5),
                udt_deps: molecule::field(call, 11, 6),
                lock_dep: molecule::field(call, 11, 7),
                extra_deps: molecule::field(call, 11, 8),
            },
            number,
            base: told(number, transaction.len()),
            transaction,
            cell: told(little_endian::byte(head, 1), cell),
            pick: told(little_endian::byte(head, 2), (taken, change, capacity)),
            output: molecule::field(call, 11, 10),
        }
    }
}

// ---- what the library answers

fn build_base(r: &Request<'_>, buffer: &mut [u8]) -> Told<usize> {
    match buffer.get_mut(..r.room) {
        Some(out) => funding_builder::build_base(&r.lent, r.figures, out).map_err(|e| e.number()),
        None => Ok(0),
    }
}

fn build_cell(r: &Request<'_>) -> Told<(u128, u128)> {
    funding_cell::build_funding_cell(r.lent.ours, r.lent.udt, r.figures)
        .map(|cell| (cell.capacity.0, cell.token.0))
        .map_err(|e| e.number())
}

fn build_pick(r: &Request<'_>, buffer: &mut [u8]) -> Told<(usize, u128, u128)> {
    let Some(out) = buffer.get_mut(..r.room) else {
        return Ok((0, 0, 0));
    };
    let lent = r.lent;
    let wanted = Tokens(r.figures.local_amount);
    udt_cells::build_udt_inputs_outputs(lent.cells, lent.udt, lent.source, wanted, out)
        .map(|built| (built.taken, built.change.0, built.capacity.0))
        .map_err(|e| e.number())
}

// ---- what it comes to

fn is_base_right(r: &Request<'_>) -> bool {
    let mut buffer = [FILL; BUFFER_ROOM];
    build_base(r, &mut buffer) == r.base
        && recorded_calls::is_written_to(&buffer, r.room, r.transaction)
}

fn is_pick_right(r: &Request<'_>) -> bool {
    let mut buffer = [FILL; BUFFER_ROOM];
    build_pick(r, &mut buffer) == r.pick && recorded_calls::is_written_to(&buffer, r.room, r.output)
}

fn is_right(r: &Request<'_>) -> bool {
    is_base_right(r) && build_cell(r) == r.cell && is_pick_right(r)
}

#[derive(Clone, Copy, Debug, PartialEq, Eq)]
struct Requests {
    counts: Tallies<COUNTS>,
}

impl Requests {
    // A request with a number past the last counts where that stands in the row of the counts.
    fn count(&mut self, number: u8, right: bool) {
        let i = usize::from(number);
        self.counts.raise(i);
        if !right {
            self.counts.raise(COUNTS + i);
        }
        self.counts.count(NUMBERS, right);
    }
}

impl InfallibleReplay for Requests {
    fn part(&mut self, part: &[u8]) {
        for item in Items::of(part) {
            let request = Request::from(item);
            self.count(request.number, is_right(&request));
        }
    }
}

// A line for each number that is recorded at all, and one for all.
fn print(requests: &Requests) -> fmt::Result {
    let mut out = Printed;
    let [.., all] = requests.counts.of;
    for (number, tally) in requests.counts.of.iter().take(NUMBERS).enumerate() {
        if tally.all != 0 {
            writeln!(
                out,
                "{number}: {} requests, {} wrong",
                tally.all, tally.wrong
            )?;
        }
    }
    writeln!(out, "all: {} requests, {} wrong", all.all, all.wrong)
}

fn main() {
    let mut room = recorded_calls::zeros::<LONGEST>();
    let mut requests = Requests {
        counts: Tallies::new(),
    };
    recorded_calls::each_stdin_part(&mut room, &mut requests);
    let _ = print(&requests);
}
