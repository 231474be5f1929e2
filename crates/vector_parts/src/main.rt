// Reads the parts of the good vectors of tools/molecule_vectors.py through the library's accessors, and compares each with the value that comes
// with it on standard input.
#![tactic(auto)]

mod parts;

use recorded_calls::{Items, Printed, Tally};
use std::fmt;
use std::fmt::Write;

fn print(name: &[u8], tally: Tally) -> fmt::Result {
    let mut out = Printed;
    out.bytes(name);
    writeln!(out, ": {} parts, {} wrong", tally.all, tally.wrong)
}

// A vector and its parts.
fn vector(v: &[u8]) -> Tally {
    let s = molecule::field(v, 2, 0);
    let mut tally = Tally::default();
    for part in Items::of(molecule::field(v, 2, 1)) {
        tally.count(parts::is_as_expected(s, part));
    }
    tally
}

// The vectors of a type.
fn group(g: &[u8]) -> Tally {
    let mut tally = Tally::default();
    for v in Items::of(molecule::field(g, 2, 1)) {
        tally.add(vector(v));
    }
    let _ = print(molecule::field(g, 2, 0), tally);
    tally
}

fn main() {
    let mut room = io::large_buffer();
    let n = recorded_calls::read_stdin(&mut room);
    let mut all = Tally::default();
    for g in Items::of(&room[..n]) {
        all.add(group(g));
    }
    let _ = print(b"all", all);
}
