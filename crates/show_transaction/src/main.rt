// Reads a transaction from standard input, at most 65,536 bytes, and prints what stands in it, or why it is refused.
#![tactic(auto)]

use reader::lists;
use std::fmt;
use std::fmt::Write;
use transaction::fields;

const STDIN_FILENO: i32 = 0;

const STDOUT_FILENO: i32 = 1;

// How many bytes are gathered before they are written.
const GATHERED: usize = 4096;

// Standard output. A write that fails is passed over, and the next one is tried.
#[derive(Debug, Drop)]
struct Output {
    bytes: [u8; GATHERED],
    len: usize,
}

impl Output {
    fn new() -> Output {
        Output {
            bytes: [0; GATHERED],
            len: 0,
        }
    }

    fn flush(&mut self) {
        if let Some(gathered) = self.bytes.get(..self.len) {
            io::write_all(STDOUT_FILENO, gathered);
        }
        self.len = 0;
    }

    // Whether there was room for a piece.
    fn gather(&mut self, piece: &[u8]) -> bool {
        let end = self.len.saturating_add(piece.len());
        let Some(room) = self.bytes.get_mut(self.len..end) else {
            return false;
        };
        room.copy_from_slice(piece);
        self.len = end;
        true
    }
}

impl fmt::Write for Output {
    fn write_str(&mut self, s: &str) -> fmt::Result {
        let piece = s.as_bytes();
        if !self.gather(piece) {
            self.flush();
            if !self.gather(piece) {
                io::write_all(STDOUT_FILENO, piece);
            }
        }
        Ok(())
    }
}

#[derive(Clone, Copy, Debug, PartialEq, Eq)]
struct Hex<'a>(&'a [u8]);

impl fmt::Display for Hex<'_> {
    fn fmt<W: fmt::Write>(&self, f: &mut fmt::Formatter<W>) -> fmt::Result {
        write!(f, "0x")?;
        for byte in self.0 {
            write!(f, "{byte:02x}")?;
        }
        Ok(())
    }
}

#[derive(Clone, Copy, Debug, PartialEq, Eq)]
struct OutPoint<'a>(&'a [u8]);

impl fmt::Display for OutPoint<'_> {
    fn fmt<W: fmt::Write>(&self, f: &mut fmt::Formatter<W>) -> fmt::Result {
        let hash = Hex(fields::tx_hash(self.0));
        write!(f, "{hash}:{}", fields::index(self.0))
    }
}

#[derive(Clone, Copy, Debug, PartialEq, Eq)]
struct Script<'a>(&'a [u8]);

impl fmt::Display for Script<'_> {
    fn fmt<W: fmt::Write>(&self, f: &mut fmt::Formatter<W>) -> fmt::Result {
        let hash = Hex(fields::code_hash(self.0));
        let args = Hex(fields::args(self.0));
        write!(
            f,
            "{hash}, hash type {}, args {args}",
            fields::hash_type(self.0)
        )
    }
}

fn show_cell_deps<W: Write>(out: &mut W, tx: &[u8]) -> fmt::Result {
    let n = lists::cell_dep_count(tx);
    writeln!(out, "cell deps {n}")?;
    for i in 0..n as usize {
        let dep = lists::cell_dep(tx, i);
        let point = OutPoint(fields::out_point(dep));
        writeln!(out, "  {point}, dep type {}", fields::dep_type(dep))?;
    }
    Ok(())
}

// A list whose items are shown as they are: header deps or witnesses.
fn show_bytes<'a, W: Write, F: Fn(usize) -> &'a [u8]>(
    out: &mut W,
    name: &str,
    n: u32,
    item: F,
) -> fmt::Result
    requires { F.IsAlwaysCallable item }
{
    writeln!(out, "{name} {n}")?;
    for i in 0..n as usize {
        writeln!(out, "  {}", Hex(item(i)))?;
    }
    Ok(())
}

fn show_inputs<W: Write>(out: &mut W, tx: &[u8]) -> fmt::Result {
    let n = lists::input_count(tx);
    writeln!(out, "inputs {n}")?;
    for i in 0..n as usize {
        let input = lists::input(tx, i);
        let point = OutPoint(fields::previous_output(input));
        writeln!(out, "  {point}, since {}", fields::since(input))?;
    }
    Ok(())
}

fn show_output<W: Write>(out: &mut W, tx: &[u8], i: usize) -> fmt::Result {
    let output = lists::output(tx, i);
    writeln!(out, "  shannons {}", fields::capacity(output).0)?;
    writeln!(out, "    lock {}", Script(fields::lock(output)))?;
    let type_script = fields::type_script(output);
    if !type_script.is_empty() {
        writeln!(out, "    type {}", Script(type_script))?;
    }
    writeln!(out, "    data {}", Hex(lists::output_data(tx, i)))
}

fn show_outputs<W: Write>(out: &mut W, tx: &[u8]) -> fmt::Result {
    let n = lists::output_count(tx);
    writeln!(out, "outputs {n}")?;
    for i in 0..n as usize {
        show_output(out, tx, i)?;
    }
    Ok(())
}

fn show<W: Write>(out: &mut W, tx: &[u8]) -> fmt::Result {
    if !transaction::is_transaction(tx) {
        return writeln!(out, "refused with 1: these bytes are no transaction");
    }
    writeln!(out, "bytes {}", tx.len())?;
    writeln!(out, "version {}", lists::version(tx))?;
    show_cell_deps(out, tx)?;
    show_bytes(out, "header deps", lists::header_dep_count(tx), |i| {
        lists::header_dep(tx, i)
    })?;
    show_inputs(out, tx)?;
    show_outputs(out, tx)?;
    show_bytes(out, "witnesses", lists::witness_count(tx), |i| {
        lists::witness(tx, i)
    })
}

fn main() {
    let mut tx = io::large_buffer();
    let n = io::read_full(STDIN_FILENO, &mut tx);
    let mut more = [0];
    let is_longer = io::read_full(STDIN_FILENO, &mut more) != 0;
    let mut out = Output::new();
    let _ = if is_longer {
        writeln!(out, "refused: more than 65,536 bytes")
    } else {
        show(&mut out, &tx[..n])
    };
    out.flush();
}
