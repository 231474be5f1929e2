// The recorded calls on a table of cells.
ghost use Rattle.std.specs.Prelude.{◌≡◌, ◌==◌, ◌&&◌, nat_eq, length, drop};
ghost use Rattle.std.specs.List.{starts_with, list_all};
ghost use Rattle.molecule.specs.Layout.{part};

use crate::items::Items;
use crate::parts::{InfallibleReplay, each_stdin_part, zeros};
use crate::printed::Printed;
use crate::readers::{Replay, each_part};
use crate::tally::Tallies;
use arithmetic::little_endian;
use std::alloc::{AllocError, Global};
use std::fmt::{Display, Write};
use std::io::BufReader;
use std::{fmt, io};

// What stands in a lent buffer before the call.
pub const FILL: u8 = 165;

// How long a part is at most together with the first one.
const LONGEST: usize = 600_000;

// As many kinds of calls as a table has at most. Kind 0 starts a sequence.
const KINDS: usize = 8;

// Whose word the recorded answer is.
#[derive(Clone, Copy, Debug, PartialEq, Eq)]
pub enum Mark {
    // The model's alone.
    Model,
    // The Rust answers alike.
    Alike,
    // The Rust goes over a bound or a buffer that it does not know.
    Over,
}

impl From<u8> for Mark {
    fn from(byte: u8) -> Mark {
        match byte {
            1 => Mark::Alike,
            2 => Mark::Over,
            _ => Mark::Model,
        }
    }
}

// A call: its kind, its mark, the number of the recorded answer, two numbers whose meaning is the kind's, how long the lent buffers are, and what is lent,
// what the buffers then begin with, and the table then, in two lists each.
#[derive(Clone, Copy, Debug, PartialEq, Eq)]
pub struct Call<'a> {
    pub kind: u8,
    pub mark: Mark,
    pub answer: u8,
    pub numbers: [u64; 2],
    pub rooms: [usize; 2],
    pub lent: [&'a [u8]; 2],
    pub tx: &'a [u8],
    pub written: [&'a [u8]; 2],
    pub table: [&'a [u8]; 2],
}

impl<'a> From<&'a [u8]> for Call<'a> {
    fn from(call: &'a [u8]) -> Call<'a> {
        let head = molecule::field(call, 8, 0);
        Call {
            kind: little_endian::byte(head, 0),
            mark: Mark::from(little_endian::byte(head, 1)),
            answer: little_endian::byte(head, 2),
            numbers: [
                little_endian::u64_at(head, 4),
                little_endian::u64_at(head, 12),
            ],
            rooms: [
                little_endian::u32_at(head, 20) as usize,
                little_endian::u32_at(head, 24) as usize,
            ],
            lent: [molecule::field(call, 8, 1), molecule::field(call, 8, 2)],
            tx: molecule::field(call, 8, 3),
            written: [molecule::field(call, 8, 4), molecule::field(call, 8, 5)],
            table: [molecule::field(call, 8, 6), molecule::field(call, 8, 7)],
        }
    }
}

fn is_filled(bytes: &[u8]) -> bool
    ensures { result ≡ list_all (λ x. x == 165) bytes.now }
{
    bytes.iter().all(|x| *x == FILL)
}

// Whether a lent buffer begins with this list, and has what stood there before in all the rest.
pub fn is_written(buffer: &[u8], list: &[u8]) -> bool
    ensures { result ≡ (starts_with nat_eq buffer.now list.now && list_all (λ x. x == 165) (drop (length list.now) buffer.now)) }
{
    buffer.starts_with(list) && is_filled(&buffer[list.len()..])
}

// The same of a buffer of which so many bytes were lent. A list that is longer is held to what stands behind them too.
pub fn is_written_to(buffer: &[u8], room: usize, list: &[u8]) -> bool
    ensures { result ≡ (starts_with nat_eq buffer.now list.now && list_all (λ x. x == 165) (part buffer.now (length list.now) room)) }
{
    buffer.starts_with(list) && is_filled(molecule::part(buffer, list.len(), room))
}

// A table of cells, which may lie in a heap.
pub trait Table: Drop {
    fn empty(alloc: Global) -> Result<Self, AllocError>;

    // Runs the call, and answers whether all is as recorded.
    fn is_right(&mut self, call: &Call<'_>, alloc: Global) -> Result<bool, AllocError>;
}

// A table of cells that needs no heap, and cannot fail.
pub trait InfallibleTable: Drop {
    fn empty() -> Self;

    // Runs the call, and answers whether all is as recorded.
    fn is_right(&mut self, call: &Call<'_>) -> bool;
}

#[derive(Clone, Copy, Debug, PartialEq, Eq)]
struct CallCounts {
    kinds: Tallies<KINDS>,
    alike: u64,
    over: u64,
}

impl CallCounts {
    fn new() -> CallCounts {
        CallCounts {
            kinds: Tallies::new(),
            alike: 0,
            over: 0,
        }
    }

    // A recording that names a kind past the last counts where it would stand in the row: that of the kinds, those alike, those over.
    fn raise(&mut self, place: usize) {
        match self.kinds.raise(place) {
            Some(0) => self.alike = self.alike.saturating_add(1),
            Some(1) => self.over = self.over.saturating_add(1),
            _ => {}
        }
    }

    fn count(&mut self, call: &Call<'_>, right: bool) {
        let kind = usize::from(call.kind);
        self.raise(kind);
        if !right {
            self.raise(KINDS + kind);
        }
        match call.mark {
            Mark::Alike => self.alike = self.alike.saturating_add(1),
            Mark::Over => self.over = self.over.saturating_add(1),
            Mark::Model => {}
        }
    }

    // Prints a line for each of these kinds but the first, which starts a sequence, and one for all.
    fn print<K: Display>(&self, kinds: &[K]) -> fmt::Result {
        let mut out = Printed;
        for (kind, tally) in kinds.iter().zip(&self.kinds.of).skip(1) {
            writeln!(out, "{kind}: {} calls, {} wrong", tally.all, tally.wrong)?;
        }
        let sum = self.kinds.sum();
        let [sequences, ..] = self.kinds.of;
        writeln!(
            out,
            "all: {} sequences, {} calls, of which the Rust answers {} alike and goes over a bound at {}, {} wrong",
            sequences.all,
            sum.all.saturating_sub(sequences.all),
            self.alike,
            self.over,
            sum.wrong
        )
    }

    // Prints the same lines by a runtime.
    fn print_by<K: Display>(&self, rt: &impl Print, kinds: &[K]) -> io::Result<()> {
        for (kind, tally) in kinds.iter().zip(&self.kinds.of).skip(1) {
            println!(rt; "{kind}: {} calls, {} wrong", tally.all, tally.wrong)?;
        }
        let sum = self.kinds.sum();
        let [sequences, ..] = self.kinds.of;
        println!(rt;
            "all: {} sequences, {} calls, of which the Rust answers {} alike and goes over a bound at {}, {} wrong",
            sequences.all,
            sum.all.saturating_sub(sequences.all),
            self.alike,
            self.over,
            sum.wrong
        )
    }
}

// The calls of each part on a table that is empty before them.
#[derive(Drop)]
struct Calls<T> {
    table: T,
    counts: CallCounts,
}

impl<T: InfallibleTable> InfallibleReplay for Calls<T> {
    fn part(&mut self, part: &[u8]) {
        self.table = T::empty();
        for item in Items::of(part) {
            let call = Call::from(item);
            let right = self.table.is_right(&call);
            self.counts.count(&call, right);
        }
    }
}

// Replays the calls of standard input, whose kinds are these by number, and prints how many there are and how many are wrong.
pub fn replay_stdin_calls<T: InfallibleTable, K: Display>(kinds: &[K]) {
    let mut room = zeros::<LONGEST>();
    let mut calls = Calls {
        table: T::empty(),
        counts: CallCounts::new(),
    };
    each_stdin_part(&mut room, &mut calls);
    let _ = calls.counts.print(kinds);
}

// The same calls on a table that may lie in a heap.
#[derive(Drop)]
struct AllocCalls<T> {
    alloc: Global,
    table: T,
    counts: CallCounts,
}

impl<T: Table> Replay for AllocCalls<T> {
    fn part(&mut self, part: &[u8]) -> io::Result<()> {
        self.table = T::empty(self.alloc)?;
        for item in Items::of(part) {
            let call = Call::from(item);
            let right = self.table.is_right(&call, self.alloc)?;
            self.counts.count(&call, right);
        }
        Ok(())
    }
}

// Replays the calls of a runtime's input, whose kinds are these by number, and prints by that runtime how many there are and how many are wrong. A write that fails is
// passed over.
pub fn replay_calls<T: Table, K: Display>(
    rt: &(impl Input + Print + AllocGlobal),
    kinds: &[K],
) -> io::Result<()> {
    let alloc = rt.alloc();
    let mut calls = AllocCalls {
        alloc,
        table: T::empty(alloc)?,
        counts: CallCounts::new(),
    };
    let input = BufReader::new(alloc, rt.reader())?;
    each_part(alloc, input, LONGEST, &mut calls)?;
    let _ = calls.counts.print_by(rt, kinds);
    Ok(())
}
