// The parts of a recording, which comes on standard input. Of one that is cut off, or that says more than there is room for, the missing bytes are what stood in
// the room before. A read that fails counts as the end of the input, and nothing is read that stands behind a recording.
ghost use Rattle.std.specs.Prelude.{◌≡◌, length};
ghost use Rattle.io.specs.Counts.{IsPrefixLen};

use arithmetic::little_endian;

const STDIN_FILENO: i32 = 0;

// What a program does with each part.
pub trait InfallibleReplay {
    fn part(&mut self, part: &[u8]);
}

// N zeros. The contract gives the length alone: a proof that sees the zeros of a long array counts them one by one.
pub fn zeros<const N: usize>() -> [u8; N]
    ensures { length result ≡ N }
{
    [0; N]
}

// Reads the input until there is no room for more of it, and answers how much that is.
pub fn read_stdin(room: &mut [u8]) -> usize
    ensures { IsPrefixLen result room.new }
{
    io::read_full(STDIN_FILENO, room)
}

fn read_u32() -> u32 {
    let mut bytes = [0; 4];
    io::read_full(STDIN_FILENO, &mut bytes);
    u32::from_le_bytes(bytes)
}

// Room for a part of a recording.
#[derive(Debug, Drop)]
struct Recording<'a> {
    room: &'a mut [u8],
}

impl Recording<'_> {
    // Reads n bytes to `at`, if there is room for them.
    fn read_to(&mut self, at: usize, n: usize) {
        if let Some(stretch) = self.room.get_mut(at..at.saturating_add(n)) {
            io::read_full(STDIN_FILENO, stretch);
        }
    }

    // Puts n bytes at `at`, each a copy of the one that stands `back` bytes before it.
    fn copy_back(&mut self, at: usize, n: usize, back: usize) {
        for to in at..at.saturating_add(n).min(self.room.len()) {
            self.room[to] = self.room[to.saturating_sub(back)];
        }
    }

    // Reads a piece to `at`, and answers where it ends.
    fn piece(&mut self, at: usize) -> usize {
        let mut head = [0; 6];
        io::read_full(STDIN_FILENO, &mut head);
        let [n, c0, c1, d0, d1, d2] = head;
        let n = usize::from(n);
        let copies = usize::from(u16::from_le_bytes([c0, c1]));
        let back = u32::from_le_bytes([d0, d1, d2, 0]) as usize;
        let end = at.saturating_add(n);
        self.read_to(at, n);
        self.copy_back(end, copies, back);
        end.saturating_add(copies)
    }

    // Reads a part to `at`, piece by piece, and answers where it ends.
    fn pieces(&mut self, at: usize) -> usize {
        let mut end = at;
        for _ in 0..read_u32() {
            end = self.piece(end);
        }
        end
    }

    // Reads a part that is stored without a run of zeros, and answers where it ends.
    fn sparse(&mut self) -> usize {
        let mut head = [0; 12];
        io::read_full(STDIN_FILENO, &mut head);
        let size = little_endian::u32_at(&head, 0) as usize;
        let place = little_endian::u32_at(&head, 4) as usize;
        let zeros = little_endian::u32_at(&head, 8) as usize;
        self.room.fill(0);
        self.read_to(0, place);
        self.read_to(place.saturating_add(zeros), size.saturating_sub(place));
        size.saturating_add(zeros)
    }
}

// Replays the parts that are stored in pieces, as tools/recorded_tables.py describes, all but the first, which stands in front of each and is only there to
// be copied from. The room, of zeros, is as long as the first is together with another part at most.
pub fn each_stdin_part<R: InfallibleReplay>(room: &mut [u8], replay: &mut R) {
    let mut recording = Recording { room };
    let parts = read_u32();
    let first = recording.pieces(0);
    for _ in 1..parts {
        let end = recording.pieces(first);
        replay.part(molecule::part(recording.room, first, end));
    }
}

// Replays the parts that are stored without a run of zeros, as tools/recorded_updates.py describes. The room is as long as a part is at most.
pub fn each_sparse_stdin_part<R: InfallibleReplay>(room: &mut [u8], replay: &mut R) {
    let mut recording = Recording { room };
    for _ in 0..read_u32() {
        let end = recording.sparse();
        replay.part(molecule::part(recording.room, 0, end));
    }
}
