// The functions that read from any reader and copy to a heap: no program calls them.
use super::*;
use std::alloc::{AllocError, Allocator, Global};
use std::cell::RefCell;
use std::fmt::{Display, Write};
use std::io;
use std::io::{BufRead, Chain, ErrorKind, Lines, Read};
use std::test::Fail;

// A reader that always fails.
#[derive(Clone, Copy)]
struct Broken;

impl Read for Broken {
    fn read(&mut self, _buf: &mut [u8]) -> io::Result<usize> {
        Err(io::Error::from(ErrorKind::ConnectionReset))
    }
}

impl BufRead for Broken {
    fn fill_buf(&mut self) -> io::Result<&[u8]> {
        Err(io::Error::from(ErrorKind::ConnectionReset))
    }

    fn consume(&mut self, _amount: usize) {}
}

// A reader that gives a byte at a time, and fails in place of an end.
#[derive(Drop)]
struct Slow<'a> {
    left: &'a [u8],
}

impl Read for Slow<'_> {
    fn read(&mut self, buf: &mut [u8]) -> io::Result<usize> {
        if buf.is_empty() {
            return Ok(0);
        }
        let Some((first, left)) = self.left.split_first() else {
            return Broken.read(buf);
        };
        buf[0] = *first;
        self.left = left;
        Ok(1)
    }
}

// A runtime whose input is these bytes and then fails, and which keeps the lines that are printed. Where it is closed it prints none.
#[derive(Drop)]
struct Fake<'a> {
    alloc: Global,
    input: &'a [u8],
    closed: bool,
    printed: RefCell<String>,
}

impl<'a> Fake<'a> {
    fn new(alloc: Global, input: &'a [u8], closed: bool) -> Fake<'a> {
        Fake {
            alloc,
            input,
            closed,
            printed: RefCell::new(String::new(alloc)),
        }
    }
}

impl Alloc for Fake<'_> {
    type A = Global;

    fn alloc(&self) -> Global {
        self.alloc
    }
}

impl<'a> Input for Fake<'a> {
    type Reader = Chain<&'a [u8], Broken>;

    fn read_line<A: Allocator + Clone>(&self, buf: &mut String<A>) -> io::Result<usize> {
        self.reader().read_line(buf)
    }

    fn lines<A: Allocator>(&self, alloc: A) -> Lines<Chain<&'a [u8], Broken>, A> {
        self.reader().lines(alloc)
    }

    fn reader(&self) -> Chain<&'a [u8], Broken> {
        self.input.chain(Broken)
    }
}

impl Print for Fake<'_> {
    fn print<D: Display + Drop>(&self, _value: D) -> io::Result<()> {
        Err(io::Error::from(ErrorKind::Unsupported))
    }

    fn println<D: Display + Drop>(&self, value: D) -> io::Result<()> {
        if self.closed {
            return Err(io::Error::from(ErrorKind::BrokenPipe));
        }
        let mut printed = self.printed.try_borrow_mut()?;
        writeln!(*printed, "{value}")?;
        Ok(())
    }

    fn write_all(&self, _bytes: &[u8]) -> io::Result<()> {
        Err(io::Error::from(ErrorKind::Unsupported))
    }
}

#[test]
fn reads_up_to_the_most(rt: HostRuntime) -> Result<(), Fail> {
    let fake = Fake::new(rt.alloc(), b"abcd", false);
    assert_eq!(rt; read_all(&fake, 3)?.as_slice(), b"abc".as_slice());
    // a read that fails is the end
    assert_eq!(rt; read_all(&fake, u64::MAX)?.as_slice(), b"abcd".as_slice());
    Ok(())
}

#[test]
fn changes_a_file(rt: HostRuntime) -> Result<(), Fail> {
    let alloc = rt.alloc();
    let three = b"\x01\x00\x03\x00\x02XY\x05\x00\x06\x00\x00\x06\x00\x00\x00\x01Z";
    assert_eq!(rt;
        changed(alloc, b"abcdef", 3, three)?.as_slice(),
        b"aXYdeZabcdef".as_slice()
    );
    // one whose places are cut off
    assert_eq!(rt;
        changed(alloc, b"abcdef", 1, b"\x02")?.as_slice(),
        b"abcdef".as_slice()
    );
    Ok(())
}

// The first parts, `most` at most, each with a stroke behind it. Each further one is refused, and leaves a `!`.
#[derive(Drop)]
struct Joined {
    parts: Vec<u8>,
    most: usize,
}

impl Replay for Joined {
    fn part(&mut self, part: &[u8]) -> io::Result<()> {
        if self.most == 0 {
            self.parts.push(b'!')?;
            return Err(io::Error::from(ErrorKind::NotConnected));
        }
        self.most -= 1;
        self.parts.extend_from_slice(part)?;
        self.parts.push(b'/')?;
        Ok(())
    }
}

fn joining(alloc: Global, most: usize) -> Joined {
    Joined {
        parts: Vec::new(alloc),
        most,
    }
}

fn is_refusal(answer: io::Result<()>) -> bool {
    match answer {
        Ok(()) => false,
        Err(e) => e.kind() == ErrorKind::NotConnected,
    }
}

#[test]
fn replays_parts(rt: HostRuntime) -> Result<(), Fail> {
    let alloc = rt.alloc();
    // a first part `ab`, and three: copied from it, with copies of copies, and in two pieces
    let recording: &[u8] = b"\x04\0\0\0\
        \x01\0\0\0\x02\0\0\0\0\0ab\
        \x01\0\0\0\x01\x02\0\x03\0\0c\
        \x01\0\0\0\x01\x03\0\x01\0\0x\
        \x02\0\0\0\x01\0\0\0\0\0d\x01\0\0\0\0\0e";
    let mut all = joining(alloc, 3);
    each_part(alloc, Slow { left: recording }, 6, &mut all)?;
    assert_eq!(rt; all.parts.as_slice(), b"cab/xxxx/de/".as_slice());
    // a refusal is told, and no part is replayed behind it
    let mut one = joining(alloc, 1);
    assert!(rt; is_refusal(each_part(alloc, recording, 6, &mut one)));
    assert_eq!(rt; one.parts.as_slice(), b"cab/!".as_slice());
    // of a stretch that there is no room for no byte is read
    let long: &[u8] = b"\x02\0\0\0\x01\0\0\0\x02\0\0\0\0\0ab\x01\0\0\0\x03\0\0\0\0\0xyz";
    let mut cut = joining(alloc, 1);
    each_part(alloc, long, 4, &mut cut)?;
    assert_eq!(rt; cut.parts.as_slice(), b"\0\0/".as_slice());
    Ok(())
}

#[test]
fn replays_sparse_parts(rt: HostRuntime) -> Result<(), Fail> {
    let alloc = rt.alloc();
    let recording: &[u8] = b"\x03\0\0\0\
        \x05\0\0\0\x01\0\0\0\x02\0\0\0abcde\
        \x01\0\0\0\x00\0\0\0\x01\0\0\0f\
        \x01\0\0\0\x01\0\0\0\x00\0\0\0g";
    let mut all = joining(alloc, 3);
    each_sparse_part(alloc, Slow { left: recording }, 7, &mut all)?;
    assert_eq!(rt; all.parts.as_slice(), b"a\0\0bcde/\0f/g/".as_slice());
    let mut one = joining(alloc, 1);
    assert!(rt; is_refusal(each_sparse_part(alloc, recording, 7, &mut one)));
    assert_eq!(rt; one.parts.as_slice(), b"a\0\0bcde/!".as_slice());
    // what is cut off is what stood in the room before: zeros
    let cut: &[u8] = b"\x01\0\0\0\x03\0\0\0\x03\0\0\0\0\0\0\0a";
    let mut rest = joining(alloc, 1);
    each_sparse_part(alloc, Slow { left: cut }, 5, &mut rest)?;
    assert_eq!(rt; rest.parts.as_slice(), b"a\0\0/".as_slice());
    // a part that ends behind the room
    let long: &[u8] = b"\x01\0\0\0\x01\0\0\0\x01\0\0\0\x09\0\0\0a";
    let mut clipped = joining(alloc, 1);
    each_sparse_part(alloc, long, 5, &mut clipped)?;
    assert_eq!(rt; clipped.parts.as_slice(), b"a\0\0\0\0/".as_slice());
    Ok(())
}

// The kinds of the calls since the table was empty. A call is right if its answer is how many there were.
#[derive(Drop)]
struct Kinds {
    of: Vec<u8>,
}

impl Table for Kinds {
    fn empty(alloc: Global) -> Result<Kinds, AllocError> {
        Ok(Kinds {
            of: Vec::new(alloc),
        })
    }

    fn is_right(&mut self, call: &Call<'_>, _alloc: Global) -> Result<bool, AllocError> {
        let before = self.of.len();
        self.of.push(call.kind)?;
        Ok(before == usize::from(call.answer))
    }
}

// A table that a call finds no memory for.
#[derive(Drop)]
struct Full;

impl Table for Full {
    fn empty(_alloc: Global) -> Result<Full, AllocError> {
        Ok(Full)
    }

    fn is_right(&mut self, _call: &Call<'_>, _alloc: Global) -> Result<bool, AllocError> {
        Err(AllocError)
    }
}

// Each call is a table of eight fields: the first has its kind, its mark and its answer, and the others are empty. The first part ends with the head of such a table,
// from which all heads are copied, and is so long that the last part ends where the room does. The two others have three calls and five, the last of them of a kind
// that is past the last one, which counts as a wrong one of kind 0.
const CALLS: &[u8] = b"\x03\0\0\0\
    \x0b\0\0\0\
    \x01\xff\xff\x01\0\0\0\
    \x01\xff\xff\x01\0\0\0\
    \x01\xff\xff\x01\0\0\0\
    \x01\xff\xff\x01\0\0\0\
    \x01\xff\xff\x01\0\0\0\
    \x01\xff\xff\x01\0\0\0\
    \x01\xff\xff\x01\0\0\0\
    \x01\xff\xff\x01\0\0\0\
    \x01\xff\xff\x01\0\0\0\
    \x01\xc0\x26\x01\0\0\0\
    \x24\0\0\0\0\0\x27\0\0\0\x24\0\0\0\x27\0\0\0\x27\0\0\0\x27\0\0\0\x27\0\0\0\x27\0\0\0\x27\0\0\0\x27\0\0\0\
    \x04\0\0\0\
    \x10\x24\0\x34\0\0\x85\0\0\0\x10\0\0\0\x37\0\0\0\x5e\0\0\0\
    \x03\x24\0\x27\0\0\x00\x00\x00\
    \x03\x24\0\x27\0\0\x01\x01\x01\
    \x03\0\0\0\0\0\x01\x01\x07\
    \x06\0\0\0\
    \x18\x24\0\x3c\0\0\xdb\0\0\0\x18\0\0\0\x3f\0\0\0\x66\0\0\0\x8d\0\0\0\xb4\0\0\0\
    \x03\x24\0\x27\0\0\x00\x00\x00\
    \x03\x24\0\x27\0\0\x01\x02\x01\
    \x03\x24\0\x27\0\0\x02\x00\x09\
    \x03\x24\0\x27\0\0\x02\x01\x07\
    \x03\0\0\0\0\0\x08\x00\x04";

#[test]
fn replays_calls(rt: HostRuntime) -> Result<(), Fail> {
    let kinds = ["start", "hold", "take"];
    let fake = Fake::new(rt.alloc(), CALLS, false);
    replay_calls::<Kinds, _>(&fake, &kinds)?;
    let printed = fake.printed.try_borrow()?;
    assert_eq!(rt;
        printed.as_str(),
        "hold: 3 calls, 1 wrong\n\
        take: 2 calls, 2 wrong\n\
        all: 2 sequences, 5 calls, of which the Rust answers 3 alike and goes over a bound at 1, 4 wrong\n"
    );
    // a write that fails is passed over
    let closed = Fake::new(rt.alloc(), CALLS, true);
    replay_calls::<Kinds, _>(&closed, &kinds)?;
    Ok(())
}

#[test]
fn tells_that_there_is_no_memory(rt: HostRuntime) -> Result<(), Fail> {
    let fake = Fake::new(rt.alloc(), CALLS, false);
    match replay_calls::<Full, _>(&fake, &["start"]) {
        Ok(()) => assert!(rt; false),
        Err(e) => assert!(rt; e.kind() == ErrorKind::OutOfMemory),
    }
    let printed = fake.printed.try_borrow()?;
    assert_eq!(rt; printed.as_str(), "");
    Ok(())
}
