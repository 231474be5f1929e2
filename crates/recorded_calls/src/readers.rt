// The parts of a recording that comes from any reader, with room for them on a heap. Of one that is cut off, or that says more than there is room for, the missing
// bytes are what stood in the room before. A read that fails counts as the end of the input. The programs use `parts`, which needs no heap.
ghost use Rattle.std.specs.Prelude.{◌≡◌, IfErr};
ghost use Rattle.std.specs.IoError.{error_kind};
ghost use Rattle.std.specs.declared.io.ErrorKind.TheVariants.{OutOfMemory};

use std::alloc::Global;
use std::io;
use std::io::{ErrorKind, Read};

// What is done with each part. Where it fails no further part is replayed.
pub trait Replay {
    fn part(&mut self, part: &[u8]) -> io::Result<()>;
}

// Reads until `buf` is full or the input ends.
fn fill<I: Read>(input: &mut I, buf: &mut [u8]) {
    let mut at = 0;
    // a while: each read says how far it came
    while at < buf.len() {
        match input.read(&mut buf[at..]) {
            Ok(0) | Err(_) => break,
            Ok(n) => at += n,
        }
    }
}

// The whole input, up to so many bytes. It fails only where there is no memory.
pub fn read_all(rt: &(impl Input + AllocGlobal), most: u64) -> io::Result<Vec<u8>>
    ensures { IfErr result (λ e. error_kind e ≡ OutOfMemory) }
{
    let mut bytes = Vec::new(rt.alloc());
    match rt.reader().take(most).read_to_end(&mut bytes) {
        Err(e) if e.kind() == ErrorKind::OutOfMemory => Err(e),
        _ => Ok(bytes),
    }
}

// A recording, and room for a part of it.
#[derive(Drop)]
struct Recording<I> {
    input: I,
    room: Vec<u8>,
}

impl<I: Read> Recording<I> {
    fn read_u32(&mut self) -> u32 {
        let mut bytes = [0; 4];
        fill(&mut self.input, &mut bytes);
        u32::from_le_bytes(bytes)
    }

    // Reads n bytes to `at`, if there is room for them.
    fn read_to(&mut self, at: usize, n: usize) {
        let room = self.room.as_mut_slice();
        if let Some(stretch) = room.get_mut(at..at.saturating_add(n)) {
            fill(&mut self.input, stretch);
        }
    }

    // Puts n bytes at `at`, each a copy of the one that stands `back` bytes before it.
    fn copy_back(&mut self, at: usize, n: usize, back: usize) {
        for to in at..at.saturating_add(n).min(self.room.len()) {
            self.room[to] = self.room[to.saturating_sub(back)];
        }
    }

    // Reads a piece to `at`, and answers where it ends.
    fn piece(&mut self, at: usize) -> usize {
        let mut head = [0; 6];
        fill(&mut self.input, &mut head);
        let [n, c0, c1, d0, d1, d2] = head;
        let n = usize::from(n);
        let copies = usize::from(u16::from_le_bytes([c0, c1]));
        let back = u32::from_le_bytes([d0, d1, d2, 0]) as usize;
        let end = at.saturating_add(n);
        self.read_to(at, n);
        self.copy_back(end, copies, back);
        end.saturating_add(copies)
    }

    // Reads a part to `at`, piece by piece, and answers where it ends.
    fn pieces(&mut self, at: usize) -> usize {
        let mut end = at;
        for _ in 0..self.read_u32() {
            end = self.piece(end);
        }
        end
    }

    // Reads a part that is stored without a run of zeros, and answers where it ends.
    fn sparse(&mut self) -> usize {
        let size = self.read_u32() as usize;
        let place = self.read_u32() as usize;
        let zeros = self.read_u32() as usize;
        self.room.fill(0);
        self.read_to(0, place);
        self.read_to(place.saturating_add(zeros), size.saturating_sub(place));
        size.saturating_add(zeros)
    }
}

// Replays the parts that are stored in pieces, as tools/recorded_tables.py describes, all but the first, which stands in front of each and is only there to
// be copied from. `longest` is how long it is together with another part at most.
pub fn each_part<I: Read + Drop, R: Replay>(
    alloc: Global,
    input: I,
    longest: usize,
    replay: &mut R,
) -> io::Result<()> {
    let room = vec![in alloc; 0u8; longest]?;
    let mut recording = Recording { input, room };
    let parts = recording.read_u32();
    let first = recording.pieces(0);
    for _ in 1..parts {
        let end = recording.pieces(first);
        replay.part(molecule::part(&recording.room, first, end))?;
    }
    Ok(())
}

// Replays the parts that are stored without a run of zeros, as tools/recorded_updates.py describes. `longest` is how long a part is at most.
pub fn each_sparse_part<I: Read + Drop, R: Replay>(
    alloc: Global,
    input: I,
    longest: usize,
    replay: &mut R,
) -> io::Result<()> {
    let room = vec![in alloc; 0u8; longest]?;
    let mut recording = Recording { input, room };
    for _ in 0..recording.read_u32() {
        let end = recording.sparse();
        replay.part(molecule::part(&recording.room, 0, end))?;
    }
    Ok(())
}
