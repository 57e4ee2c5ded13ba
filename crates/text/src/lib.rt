// Text: digits in arrays by value, and lines into a lent text.
#![tactic(auto)]

ghost use Rattle.std.specs.Prelude.{◌≡◌, ◌+◌, ◌≤◌, ◌<◌, length};
ghost use Rattle.text.specs.Text.{digit_of, digits_of, hex_of, decimal_of, binary_of};
ghost use Rattle.text.specs.Fill.{Added};

// The byte of one hex digit.
#[tactic(auto, unfolding(crate::specs::Text::digit_of))]
pub fn digit(d: u32) -> u8
    requires { d < 16 }
    ensures { result ≡ digit_of d }
{
    if d < 10 {
        return 48 + d as u8;
    }
    55 + d as u8
}

// The low digits of a number to a base, highest first.
fn digits<const BASE: u64, const N: usize>(x: u64) -> [u8; N]
    requires { (2 ≤ BASE) × (BASE ≤ 16) }
    ensures { result ≡ digits_of BASE N x }
{
    let mut out = [b'0'; N];
    let mut left = x;
    for i in (0..N).rev() {
        out[i] = digit((left % BASE) as u32);
        left /= BASE;
    }
    out
}

// The low digits of a number in hex, in decimal and in binary.
pub fn hex<const N: usize>(x: u64) -> [u8; N]
    ensures { result ≡ hex_of N x }
{
    digits::<16, N>(x)
}

pub fn decimal<const N: usize>(x: u64) -> [u8; N]
    ensures { result ≡ decimal_of N x }
{
    digits::<10, N>(x)
}

pub fn binary<const N: usize>(x: u64) -> [u8; N]
    ensures { result ≡ binary_of N x }
{
    digits::<2, N>(x)
}

// A line into a text at a place; where it ends.
// Kept: a loop and not `copy_from_slice`, which calls C's memmove: the library calls nothing of C (tools/header_check.py). A text and a place, and no
// writer that holds both: `Added` says of every byte of the lent text what it is, past the place too.
pub fn put(line: &[u8], text: &mut [u8], at: usize) -> usize
    requires { at + length line.now ≤ length text.old }
    ensures { Added line.now at text.old result text.new }
{
    for (k, byte) in line.iter().enumerate() {
        text[at + k] = *byte;
    }
    at + line.len()
}
