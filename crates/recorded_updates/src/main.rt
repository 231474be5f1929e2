// Runs recorded case files through the library and holds each line to the recorded one. They come on standard input, in the form
// that tools/recorded_updates.py describes: in parts, each a case file with its line, and copies of it, damaged or changed, with theirs. It
// prints of each number how many files have it recorded, and to how many of them the library answers another line.
#![tactic(auto)]

use arithmetic::little_endian;
use recorded_calls::{InfallibleReplay, Items, Printed, Tallies};
use std::fmt;
use std::fmt::Write;
use verdict_line::LINE_BYTES;

// How long a part is at most, and a copy.
const LONGEST: usize = 66_000;

// As many as there are numbers that a line begins with.
const NUMBERS: usize = 9;

// A copy of a case file: its line, whether the Rust panics at it, and its changes.
#[derive(Clone, Copy, Debug, PartialEq, Eq)]
struct Copied<'a> {
    line: &'a [u8],
    panics: bool,
    count: u8,
    changes: &'a [u8],
}

impl<'a> From<&'a [u8]> for Copied<'a> {
    fn from(copy: &'a [u8]) -> Copied<'a> {
        let mark = little_endian::byte(copy, 0);
        let end = 1 + usize::from(mark % 128);
        Copied {
            line: molecule::part(copy, 1, end),
            panics: mark >= 128,
            count: little_endian::byte(copy, end),
            changes: molecule::part(copy, end + 1, copy.len()),
        }
    }
}

// Whether the library answers the file with this line.
fn is_right(file: &[u8], line: &[u8]) -> bool {
    let mut out = [0u8; LINE_BYTES];
    let n = case_file::check_case(file, &mut out);
    n == line.len() && out.starts_with(line)
}

// What was counted, by the digit that a line begins with, and room for a copy.
#[derive(Debug, Drop)]
struct Files<'a> {
    by_number: Tallies<NUMBERS>,
    panics: u64,
    copy: &'a mut [u8],
}

impl Files<'_> {
    fn panic(&mut self) {
        self.panics = self.panics.saturating_add(1);
    }

    // A line that begins with another byte counts where its number would stand in the row: that of the digits, those at which the Rust panics.
    fn raise(&mut self, place: usize) {
        if self.by_number.raise(place) == Some(0) {
            self.panic();
        }
    }

    // Counts a file under the digit that its line begins with.
    fn count(&mut self, line: &[u8], right: bool) {
        let digit = usize::from(little_endian::byte(line, 0).saturating_sub(b'0'));
        self.raise(digit);
        if !right {
            self.raise(NUMBERS + digit);
        }
    }

    fn judge_copy(&mut self, file: &[u8], copy: &Copied<'_>) {
        let n = recorded_calls::put_changed(self.copy, file, copy.count, copy.changes);
        let right = is_right(molecule::part(self.copy, 0, n), copy.line);
        self.count(copy.line, right);
        if copy.panics {
            self.panic();
        }
    }
}

impl InfallibleReplay for Files<'_> {
    // The file itself has a line unless an earlier part had it.
    fn part(&mut self, part: &[u8]) {
        let file = molecule::field(part, 3, 0);
        let line = molecule::field(part, 3, 1);
        if !line.is_empty() {
            self.count(line, is_right(file, line));
        }
        for item in Items::of(molecule::field(part, 3, 2)) {
            self.judge_copy(file, &Copied::from(item));
        }
    }
}

fn print(files: &Files<'_>) -> fmt::Result {
    let mut out = Printed;
    for (number, tally) in files.by_number.of.iter().enumerate() {
        writeln!(out, "{number}: {} files, {} wrong", tally.all, tally.wrong)?;
    }
    let sum = files.by_number.sum();
    writeln!(
        out,
        "all: {} files, of which the Rust panics at {}, {} wrong",
        sum.all, files.panics, sum.wrong
    )
}

fn main() {
    let mut room = recorded_calls::zeros::<LONGEST>();
    let mut copy = recorded_calls::zeros::<LONGEST>();
    let mut files = Files {
        by_number: Tallies::new(),
        panics: 0,
        copy: &mut copy,
    };
    recorded_calls::each_sparse_stdin_part(&mut room, &mut files);
    let _ = print(&files);
}
