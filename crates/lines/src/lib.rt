// What the programs share that read cases with their answers or print words: hex numbers in a line, lists of them, the tally of the cases that were
// missed, and a word in print. A list is filled up with `-`, so that all lines are of one length.
#![tactic(auto)]

ghost use Rattle.std.specs.Prelude.{◌≡◌, ℕ, ◌+◌, ◌%◌, ◌≤◌, ◌<◌, length};
ghost use Rattle.std.specs.Fn.{FnReturnsAt};
ghost use Rattle.std.proofs.Common.{lit<};
ghost use Rattle.lines.specs.Lines.{joined_of, number_of, number_at, filled_of, TakenAs, counted_of, Tallied};

// How many cases were tried and missed, and the number of the first that was missed, counted from 1; 0 if none was.
// Kept: `first` is 0 and no Option: `counted` promises it so (`counted_of`).
#[derive(Clone, Copy, Default)]
pub struct Tally {
    pub cases: u32,
    pub missed: u32,
    pub first: u32,
}

// ---- numbers

// A number with one hex digit more. A character of a digit 0 to 9 ends in its value; those of letters are above 64, and A ends in 1.
fn joined(n: u32, digit: u8) -> u32
    ensures { result ≡ joined_of n digit }
{
    n % 0x1000_0000 * 16 + (digit % 16 + digit / 64 * 9) as u32 % 16
}

// The number that hex digits are.
fn number(digits: &[u8]) -> u32
    ensures { result ≡ number_of digits.now }
{
    digits.iter().fold(0, |n, digit| joined(n, *digit))
}

// The number of so many digits at a place of a line.
pub fn number_at(line: &[u8], at: usize, digits: usize) -> u32
    requires { at + digits ≤ length line.now }
    ensures { result ≡ number_at line.now at digits }
{
    number(&line[at..at + digits])
}

// ---- lists

// How many characters of a list stand before its first `-`.
fn filled(list: &[u8]) -> usize
    ensures { (result ≡ filled_of list.now) × (result ≤ length list.now) }
{
    list.iter().take_while(|c| **c != b'-').count()
}

// What a list is of: numbers of so many hex digits each, of which a type's bits are kept.
pub trait Listed: Copy + Drop {
    ghost DIGITS: { ℕ };

    ghost kept: { ℕ → Self };

    ghost some_digits: { 0 < DIGITS };

    const DIGITS: usize;

    fn kept(number: u32) -> Self
        ensures { result ≡ kept number };
}

impl Listed for u8 {
    ghost DIGITS = { 2 };

    ghost kept = { λ n. n % 256 };

    ghost some_digits = { lit< tt };

    const DIGITS: usize = 2;

    fn kept(number: u32) -> u8 {
        (number % 0x100) as u8
    }
}

impl Listed for u16 {
    ghost DIGITS = { 4 };

    ghost kept = { λ n. n % 65536 };

    ghost some_digits = { lit< tt };

    const DIGITS: usize = 4;

    fn kept(number: u32) -> u16 {
        (number % 0x1_0000) as u16
    }
}

impl Listed for u32 {
    ghost DIGITS = { 8 };

    ghost kept = { λ n. n % 4294967296 };

    ghost some_digits = { lit< tt };

    const DIGITS: usize = 8;

    fn kept(number: u32) -> u32 {
        number
    }
}

// A list's numbers into `to`, as far as there is room; how many there were.
pub fn numbers<T: Listed>(list: &[u8], to: &mut [T]) -> usize
    ensures { TakenAs T.DIGITS T.kept list.now to.old result to.new }
{
    let n = to.len().min(filled(list) / T::DIGITS);
    for k in 0..n {
        to[k] = T::kept(number_at(list, T::DIGITS * k, T::DIGITS));
    }
    n
}

// ---- cases

// Past this many lines the rest is not read.
pub const MOST: u32 = 1000000;

// The next line of standard input; whether there was a whole one. No promise can speak of what is read.
// Kept: a bool, since the line is the caller's.
pub fn read(line: &mut [u8]) -> bool {
    io::read_full(0, line) == line.len()
}

// The tally after one case more, which was right or missed.
pub fn counted(tally: Tally, right: bool) -> Tally
    requires { (tally.missed ≤ tally.cases) × (tally.cases < 4294967295) }
    ensures value { result ≡ counted_of tally right }
    ensures missed_le_cases { (result.missed ≤ result.cases) × (result.cases ≡ tally.cases + 1) }
{
    let mut after = tally;
    after.cases = tally.cases + 1;
    if right {
        return after;
    }
    after.missed = tally.missed + 1;
    if tally.missed == 0 {
        after.first = after.cases;
        return after;
    }
    after
}

// The tally of standard input's lines, each of which is read into `line`, and right or missed.
// Kept: a slice and not an array of N bytes, since no proof is made yet of a function whose bound `Fn` names N.
pub fn tallied<F: Fn(&[u8]) -> bool>(line: &mut [u8], right: F) -> Tally
    requires { F.IsAlwaysCallable right }
    ensures { Tallied (FnReturnsAt F.Fn right) result }
{
    let mut tally = Tally::default();
    for _ in 0..MOST {
        if !read(line) {
            break;
        }
        tally = counted(tally, right(line));
    }
    tally
}

// A tally's line.
// Kept: no Display, here and in the programs: they print by the kit's `io::write_all`, as docs/PROMISES.md counts it, which formats nothing.
pub fn print_tally(tally: Tally) {
    io::print_decimal(1, tally.cases as u64);
    io::write_all(1, b" cases, ");
    io::print_decimal(1, tally.missed as u64);
    io::write_all(1, b" missed");
    if tally.missed != 0 {
        io::write_all(1, b", the first in line ");
        io::print_decimal(1, tally.first as u64);
    }
    io::write_all(1, b"\n");
}

// ---- in print

// A word's eight digits and one character after them.
pub fn print_word(x: u32, after: u8) {
    io::write_all(1, &text::hex::<8>(x as u64));
    io::write_all(1, &[after]);
}
