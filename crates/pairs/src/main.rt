// The signed multiplication and the signed division of all pairs of one-byte numbers, each run beside plain arithmetic, from two statuses; and the
// division of every dividend of two bytes by every divisor of one, where the quotient fits one. It reads four sheets, packed, one after the other,
// all on registers 0 to 4; as a listing (docs/LISTING.md) in short, where what is left out is 0 and xN is N lines (M48 of docs/MANUAL.md says
// what each word is for). The multiplication, Q times register 0, high half in register 1, low half in Q:
//
//     SMULFIRST   code=1 A=0 B=1 Y=1 write
//     SMULSTEP    code=1 x3 A=0 B=1 Y=1 write
//
// The division, register 4 by register 0, remainder in register 1, quotient in register 2; register 3 holds 0. A dividend of two bytes, in register 1
// and Q, starts at SDIVFIRST:
//
//     LOADQ-A     code=1 A=4
//     SIGN        code=1 B=1 Y=1 write
//     SDIVFIRST   code=1 A=0 B=1 Y=1 write
//     SDIVSTEP    code=1 x7 A=0 B=1 Y=1 write
//     SDIVLAST1   code=1 A=0 B=1 Y=1 write
//     SDIVLAST2   code=1 A=3 B=1                # from here
//     RSTBIT-STAT code=0 position=18
//     EXTBIT-STAT code=0 position=15
//     DN1-LF-B    code=1 B=1                    # to here in place of table 11-2's jump
//     SDIVLAST2   code=1 A=0 B=1
//     PASS-Q      code=1 B=2 Y=2 write
//     QUOCORR     code=1 B=2 Y=2 write
//     REMCORR     code=1 A=0 B=1 Y=1 write
//
// The third is the second without those four words: table 11-2 without its jump. The fourth is the third without its SDIVLAST2. Both miss some
// pairs, and how many is what is asked of them. The stored output is the independent program's (oracle/README.md).
#![tactic(auto)]

ghost use Rattle.std.specs.Prelude.{◌≤◌};

use lines::print_word;
use machine::Machine;
use run::RunAnswer;

// More words than any of the sheets has.
const ALLOWANCE: usize = 0x1000;

// Where SDIVFIRST stands in the division.
const SDIVFIRST: usize = 2;

// ---- arithmetic

// Multiplier and multiplicand, or dividend and divisor.
#[derive(Clone, Copy)]
pub struct Pair {
    pub x: i16,
    pub y: i8,
}

impl Pair {
    // The pair of bytes in which a number ends.
    fn of_bytes(n: u32) -> Pair {
        let [_, _, x, y] = n.to_be_bytes();
        Pair {
            x: i16::from(x.cast_signed()),
            y: y.cast_signed(),
        }
    }

    // The pair of two bytes and a byte.
    fn long(n: u32) -> Pair {
        let [_, high, low, y] = n.to_be_bytes();
        Pair {
            x: i16::from_be_bytes([high, low]),
            y: y.cast_signed(),
        }
    }

    // The low byte of multiplier or dividend.
    fn low(self) -> u8 {
        let [_, low] = self.x.to_be_bytes();
        low
    }

    // The product, high byte first.
    fn product(self) -> [u8; 2] {
        self.x.wrapping_mul(i16::from(self.y)).to_be_bytes()
    }

    // The quotient cut towards zero, and the remainder, of the dividend's sign, where the quotient fits one byte. The remainder always does.
    fn divided(self) -> Option<(i8, i8)> {
        let y = i16::from(self.y);
        let quotient = i8::try_from(self.x.checked_div(y)?).ok()?;
        let remainder = i8::try_from(self.x.checked_rem(y)?).ok()?;
        Some((quotient, remainder))
    }
}

// ---- a list run

// A low byte put below other bytes.
fn with_low(x: u32, low: u8) -> u32 {
    x / 256 * 256 + u32::from(low)
}

// What a list starts from: its first word, the registers, Q and status.
#[derive(Clone, Copy)]
pub struct Start {
    pub word: usize,
    pub file: [u32; 6],
    pub machine: Machine,
}

// What it left: what its run answers, and the registers.
#[derive(Clone, Copy)]
pub struct Left {
    pub answer: RunAnswer,
    pub file: [u32; 6],
}

impl Start {
    // Of a pair, with r and q for the low bytes of register 1 and Q. Register 5 no sheet names; in the others the upper three bytes have to stay.
    fn new(word: usize, pair: Pair, r: u8, q: u8, status: u32) -> Start {
        Start {
            word,
            file: [
                with_low(0x8a91b3c5, pair.y.cast_unsigned()),
                with_low(0x5e6f7081, r),
                0x9badc0de,
                0xf0e1d200,
                with_low(0x7f3b2a19, pair.low()),
                0xc35a3ca5,
            ],
            machine: Machine {
                q: with_low(0xa7b6c5d4, q),
                status,
            },
        }
    }

    fn run(self, sheet: &[u8]) -> Left {
        let mut file = self.file;
        let answer = run::run(sheet, &mut file, self.machine, self.word, ALLOWANCE);
        Left { answer, file }
    }
}

// ---- the lists

// A list to be tried on a pair: its start; what arithmetic says that it leaves in the registers, and in Q where Q is a result; and whether the pair
// has a dividend below 0, remainder 0 and an odd quotient.
#[derive(Clone, Copy)]
pub struct Trial {
    pub start: Start,
    pub file: [u32; 6],
    pub q: Option<u32>,
    pub odd: bool,
}

impl Trial {
    // Whether the list ran, and left what arithmetic says and all other registers as they were.
    fn right(self, left: Left) -> bool {
        let answer = left.answer;
        answer.outcome.is_ok()
            && left.file == self.file
            && self.q.is_none_or(|q| answer.machine.q == q)
    }
}

// What differs between the lists.
pub trait List {
    // How many pairs it is tried on.
    const PAIRS: u32;

    // The trial on the pair of a number, if something is promised of it.
    fn trial(n: u32, status: u32) -> Option<Trial>;
}

pub struct Multiply;

pub struct Divide;

// The division of a dividend of two bytes.
pub struct DivideLong;

// Q's low byte is the multiplier. The product's halves come into register 1 and Q.
impl List for Multiply {
    const PAIRS: u32 = 0x1_0000;

    fn trial(n: u32, status: u32) -> Option<Trial> {
        let pair = Pair::of_bytes(n);
        let start = Start::new(0, pair, 0x81, pair.low(), status);
        let [high, low] = pair.product();
        let mut file = start.file;
        file[1] = with_low(file[1], high);
        let q = Some(with_low(start.machine.q, low));
        Some(Trial {
            start,
            file,
            q,
            odd: false,
        })
    }
}

// Q's low byte is another than the dividend's: LOADQ-A replaces it.
fn divide_start(pair: Pair, status: u32) -> Start {
    Start::new(0, pair, 0x81, !pair.low(), status)
}

// Quotient and remainder come into registers 2 and 1. Something is promised where the quotient fits one byte.
fn divide_trial(pair: Pair, start: Start) -> Option<Trial> {
    let (quotient, remainder) = pair.divided()?;
    let mut file = start.file;
    file[1] = with_low(file[1], remainder.cast_unsigned());
    file[2] = with_low(file[2], quotient.cast_unsigned());
    let odd = pair.x < 0 && remainder == 0 && quotient % 2 != 0;
    Some(Trial {
        start,
        file,
        q: None,
        odd,
    })
}

impl List for Divide {
    const PAIRS: u32 = 0x1_0000;

    fn trial(n: u32, status: u32) -> Option<Trial> {
        let pair = Pair::of_bytes(n);
        divide_trial(pair, divide_start(pair, status))
    }
}

// The dividend is in register 1 and Q.
impl List for DivideLong {
    const PAIRS: u32 = 0x100_0000;

    fn trial(n: u32, status: u32) -> Option<Trial> {
        let pair = Pair::long(n);
        let [high, low] = pair.x.to_be_bytes();
        divide_trial(pair, Start::new(SDIVFIRST, pair, high, low, status))
    }
}

// ---- all pairs

// One step of the generator of the independent program's draw, by which a sum is stirred.
// Kept: digest::draw has the same step; no crate below both programs is about draws or sums.
fn next(x: u64) -> u64 {
    let a = x ^ (x << 13);
    let b = a ^ (a >> 7);
    b ^ (b << 17)
}

fn stirred(sum: u64, value: u32) -> u64 {
    next(sum ^ value as u64)
}

// The sum after what a list left: registers 0 to 5, Q, status.
fn summed(sum: u64, left: Left) -> u64 {
    let machine = left.answer.machine;
    let after_file = left.file.iter().fold(sum, |sum, x| stirred(sum, *x));
    stirred(stirred(after_file, machine.q), machine.status)
}

// How many pairs came out as arithmetic says, how many did not, how many of these have a dividend below 0, remainder 0 and an odd quotient, and a
// sum over all that was left.
#[derive(Clone, Copy, Default)]
pub struct Tally {
    pub right: usize,
    pub wrong: usize,
    pub odd: usize,
    pub sum: u64,
}

// The tally of all pairs from one status.
fn tallied<L: List>(sheet: &[u8], status: u32) -> Tally {
    let mut tally = Tally {
        sum: 1,
        ..Tally::default()
    };
    for n in 0..L::PAIRS {
        if let Some(trial) = L::trial(n, status) {
            let left = trial.start.run(sheet);
            tally.sum = summed(tally.sum, left);
            if trial.right(left) {
                tally.right += 1;
            } else {
                tally.wrong += 1;
                tally.odd += usize::from(trial.odd);
            }
        }
    }
    tally
}

// ---- in print

fn print_number(n: usize, after: &[u8]) {
    io::print_decimal(1, n as u64);
    io::write_all(1, after);
}

// A list's name and the status before it.
fn print_head(name: &[u8], status: u32) {
    io::write_all(1, name);
    io::write_all(1, b", status ");
    print_word(status, b':');
}

fn print_tally(tally: Tally) {
    io::write_all(1, b" ");
    print_number(tally.right, b" pairs as arithmetic says, ");
    print_number(tally.wrong, b" not");
    if tally.odd != 0 {
        io::write_all(1, b", of them ");
        print_number(
            tally.odd,
            b" with dividend below 0, remainder 0, odd quotient",
        );
    }
    io::write_all(1, b"; sum ");
    io::write_all(1, &text::hex::<16>(tally.sum));
    io::write_all(1, b"\n");
}

// A list tried on all pairs from one status.
fn sweep<L: List>(name: &[u8], sheet: &[u8], status: u32) {
    print_head(name, status);
    print_tally(tallied::<L>(sheet, status));
}

// From two statuses.
fn sweep_both<L: List>(name: &[u8], sheet: &[u8]) {
    sweep::<L>(name, sheet, 0);
    sweep::<L>(name, sheet, 0xffffffff);
}

// ---- what is told and not promised

// The low bytes of registers 2 and 1 after a division.
fn after_division(sheet: &[u8], pair: Pair, status: u32) -> [u8; 2] {
    let left = divide_start(pair, status).run(sheet);
    let [_, _, _, k] = left.file[2].to_be_bytes();
    let [_, _, _, r] = left.file[1].to_be_bytes();
    [k, r]
}

// How many dividends of one byte, with these bytes after their division by 0, are counted.
fn over_zero<C: Fn(i8, [u8; 2]) -> bool>(sheet: &[u8], status: u32, counts: C) -> usize
    requires { C.IsAlwaysCallable counts }
    ensures { result ≤ 256 }
{
    (i8::MIN..=i8::MAX)
        .filter(|x| {
            let pair = Pair {
                x: i16::from(*x),
                y: 0,
            };
            counts(*x, after_division(sheet, pair, status))
        })
        .count()
}

// Of divisor 0: how often the dividend ended in register 1, R, and how often register 2, K, was FF and 01. And 80 over FF.
fn not_promised(sheet: &[u8], status: u32) {
    let dividends = over_zero(sheet, status, |x, [_, r]| r == x.cast_unsigned());
    let ff = over_zero(sheet, status, |_, [k, _]| k == 0xff);
    let one = over_zero(sheet, status, |_, [k, _]| k == 1);
    let [k, r] = after_division(sheet, Pair { x: -128, y: -1 }, status);
    print_head(b"divide", status);
    io::write_all(1, b" divisor 00 leaves ");
    print_number(dividends, b" of 256 dividends in R, K FF ");
    print_number(ff, b" times, K 01 ");
    print_number(one, b" times; 80 over FF leaves K ");
    io::write_all(1, &text::hex::<2>(k as u64));
    io::write_all(1, b", R ");
    io::write_all(1, &text::hex::<2>(r as u64));
    io::write_all(1, b"\n");
}

fn main() {
    let mut multiply = [0u8; 28];
    let mut divide = [0u8; 118];
    let mut table = [0u8; 94];
    let mut shorter = [0u8; 88];
    io::read_full(0, &mut multiply);
    io::read_full(0, &mut divide);
    io::read_full(0, &mut table);
    io::read_full(0, &mut shorter);
    sweep_both::<Multiply>(b"multiply", &multiply);
    sweep_both::<Divide>(b"divide", &divide);
    sweep::<DivideLong>(b"divide, dividend of two bytes", &divide, 0xffffffff);
    not_promised(&divide, 0);
    not_promised(&divide, 0xffffffff);
    sweep_both::<Divide>(b"table 11-2 without its jump", &table);
    sweep_both::<Divide>(b"and without SDIVLAST2", &shorter);
}
