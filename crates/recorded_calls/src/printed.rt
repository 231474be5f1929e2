// What the programs print.
use std::fmt;

const STDOUT_FILENO: i32 = 1;

// Standard output. A write that fails is passed over, and the next one is tried.
#[derive(Clone, Copy, Debug, PartialEq, Eq)]
pub struct Printed;

impl Printed {
    // Prints a name, which need not be text.
    pub fn bytes(&mut self, bytes: &[u8]) {
        io::write_all(STDOUT_FILENO, bytes);
    }
}

impl fmt::Write for Printed {
    fn write_str(&mut self, s: &str) -> fmt::Result {
        self.bytes(s.as_bytes());
        Ok(())
    }
}
