// Runs the vectors of RFC 0008, transactions and lent lists through the library's readers and writers, and damaged copies of each. The
// vectors and the right answers come on standard input, in the form that tools/molecule_vectors.py describes. A good vector is wrong if it is
// refused or if it is not written again byte for byte; a damaged copy is wrong if it is read
// or refused against the answer that comes with it, or, where it is readable, if it is not written again byte for byte.
#![tactic(auto)]

mod rewrite;
mod types;

use arithmetic::little_endian;
use molecule::write;
use recorded_calls::{FILL, Items, Printed};
use std::fmt;
use std::fmt::Write;
use types::Kind;

// Room for the longest vector and more. Of a longer one, and of a copy, what there is no room for is left out.
const ROOM: usize = 2048;

#[derive(Clone, Copy, Debug, Default, PartialEq, Eq)]
struct Count {
    good: u64,
    damaged: u64,
    readable: u64,
    wrong: u64,
}

impl Count {
    fn add(&mut self, other: Count) {
        self.good = self.good.saturating_add(other.good);
        self.damaged = self.damaged.saturating_add(other.damaged);
        self.readable = self.readable.saturating_add(other.readable);
        self.wrong = self.wrong.saturating_add(other.wrong);
    }
}

impl fmt::Display for Count {
    fn fmt<W: fmt::Write>(&self, f: &mut fmt::Formatter<W>) -> fmt::Result {
        write!(
            f,
            "{} good, {} damaged, of which {} are readable, {} wrong",
            self.good, self.damaged, self.readable, self.wrong
        )
    }
}

fn print(name: &[u8], count: Count) -> fmt::Result {
    let mut out = Printed;
    out.bytes(name);
    writeln!(out, ": {count}")
}

// ---- one string

// Whether s is written again byte for byte, and the bytes behind it keep their value.
fn is_rewritten(kind: Kind, s: &[u8]) -> bool {
    let mut out = [FILL; ROOM];
    let n = rewrite::put_value(&mut out, s, kind);
    n == s.len() && recorded_calls::is_written(&out, s)
}

// Whether s is written again into a buffer of its length.
fn is_fitted(kind: Kind, s: &[u8]) -> bool {
    let mut out = [FILL; ROOM];
    let Some(room) = out.get_mut(..s.len()) else {
        return false;
    };
    rewrite::put_value(room, s, kind);
    let room: &[u8] = room;
    room == s
}

// Whether the library's writer of transactions refuses s with 1 and writes nothing.
fn is_refused(s: &[u8]) -> bool {
    let mut out = [FILL; ROOM];
    match rewrite::put_transaction(&mut out, s) {
        Ok(_) => false,
        Err(refusal) => refusal.number() == 1 && recorded_calls::is_written(&out, &[]),
    }
}

// Whether s is read where it is readable, and then written again where there is room for more, and where there is room for it and no more.
fn is_right(kind: Kind, s: &[u8], readable: bool) -> bool {
    if kind.reads(s) != readable {
        return false;
    }
    if readable {
        return is_fitted(kind, s) && is_rewritten(kind, s);
    }
    kind != Kind::Transaction || is_refused(s)
}

fn good(kind: Kind, s: &[u8]) -> Count {
    Count {
        good: 1,
        damaged: 0,
        readable: 0,
        wrong: u64::from(!is_right(kind, s, true)),
    }
}

fn damaged(kind: Kind, s: &[u8], readable: bool) -> Count {
    Count {
        good: 0,
        damaged: 1,
        readable: u64::from(readable),
        wrong: u64::from(!is_right(kind, s, readable)),
    }
}

// ---- damage at each place of a vector

// Cut before the place, and with the byte there one up and one down: of each the answers have a bit, whether it is readable. `work` begins with the n bytes of
// s that there is room for.
fn at_place(kind: Kind, s: &[u8], work: &mut [u8], n: usize, i: usize, answers: u8) -> Count {
    let mut count = damaged(kind, molecule::part(s, 0, i), answers & 1 != 0);
    let byte = little_endian::byte(s, i);
    set(work, i, byte.wrapping_add(1));
    count.add(damaged(kind, molecule::part(work, 0, n), answers & 2 != 0));
    set(work, i, byte.wrapping_sub(1));
    count.add(damaged(kind, molecule::part(work, 0, n), answers & 4 != 0));
    set(work, i, byte);
    count
}

fn set(s: &mut [u8], i: usize, byte: u8) {
    if let Some(place) = s.get_mut(i) {
        *place = byte;
    }
}

fn at_places(kind: Kind, s: &[u8], answers: &[u8]) -> Count {
    let mut work = [0; ROOM];
    let n = write::put(&mut work, 0, s);
    let mut count = Count::default();
    for i in 0..s.len() {
        count.add(at_place(kind, s, &mut work, n, i, little_endian::byte(answers, i)));
    }
    count
}

// ---- damage to the form

fn copied(kind: Kind, s: &[u8], copy: &[u8]) -> Count {
    let mut work = [0; ROOM];
    let changes = molecule::part(copy, 2, copy.len());
    let n = recorded_calls::put_changed(&mut work, s, little_endian::byte(copy, 1), changes);
    damaged(
        kind,
        molecule::part(&work, 0, n),
        little_endian::byte(copy, 0) == 1,
    )
}

// ---- the file

fn vector(kind: Kind, v: &[u8]) -> Count {
    let s = molecule::field(v, 3, 0);
    let mut count = good(kind, s);
    count.add(at_places(kind, s, molecule::field(v, 3, 1)));
    for copy in Items::of(molecule::field(v, 3, 2)) {
        count.add(copied(kind, s, copy));
    }
    count
}

// The vectors of a type.
fn group(g: &[u8]) -> Count {
    let number = little_endian::byte(molecule::field(g, 3, 0), 0);
    let kind = Kind::from(number);
    let mut count = Count::default();
    for v in Items::of(molecule::field(g, 3, 2)) {
        count.add(vector(kind, v));
    }
    let _ = print(molecule::field(g, 3, 1), count);
    count
}

fn main() {
    let mut room = io::large_buffer();
    let n = recorded_calls::read_stdin(&mut room);
    let mut all = Count::default();
    for g in Items::of(&room[..n]) {
        all.add(group(g));
    }
    let _ = print(b"all", all);
}
