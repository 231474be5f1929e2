// Reads a case file from standard input, at most 65,536 bytes, and prints the verdict line: 0 and the capacity surplus in hex, or a refusal's number and
// its values. By the toolchain's `io`, which rests on two functions of C's, where `std::io` rests on four.
#![tactic(auto, using(crate::proofs::Ways::ways))]

const STDIN_FILENO: i32 = 0;

const STDOUT_FILENO: i32 = 1;

fn main() {
    // one byte more than the longest case file, so that a longer one is seen to be too long
    let mut file = [0u8; case_file::FILE_BYTES + 1];
    let n = io::read_full(STDIN_FILENO, &mut file);
    let mut line = [0u8; verdict_line::LINE_BYTES];
    let length = case_file::check_case(&file[..n], &mut line);
    io::write_all(STDOUT_FILENO, &line[..length]);
}
