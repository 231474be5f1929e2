// Numbers taken by their bits. The contracts speak of division and remainder; specs/Bits.antt says what these are in bits.
ghost use Rattle.std.specs.Prelude.{◌≡◌, ◌/◌, ◌%◌, ◌==◌};

// A quarter of x, rounded down.
pub fn quarter(x: u32) -> u32
    ensures { result ≡ x / 4 }
{
    x >> 2
}

// Whether x is a multiple of four.
pub fn is_multiple_of_four(x: u32) -> bool
    ensures { result ≡ (x % 4 == 0) }
{
    x & 3 == 0
}
