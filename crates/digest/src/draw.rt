// The draw: the cases that the independent program draws, each with how it is run on registers. In words: oracle/README.md.
ghost use Rattle.std.specs.Prelude.{◌<◌};

use chip::SingleWord;

const SYSTEMATIC: u32 = 73728;

// The digits about which decimal carries turn.
const DIGITS: [u8; 8] = [0x0, 0x1, 0x4, 0x5, 0x8, 0x9, 0xa, 0xf];

// A case of the single word, and the draw that says how it is run on registers, which is also the generator after the case.
#[derive(Clone, Copy)]
pub struct Case {
    pub word: SingleWord,
    pub how: u64,
}

// An opcode number's line as it is drawn: the number, and the generator before the next case.
#[derive(Clone, Copy)]
pub struct Line {
    pub opcode: u32,
    pub seed: u64,
}

// One step of the generator.
fn next(x: u64) -> u64 {
    let a = x ^ (x << 13);
    let b = a ^ (a >> 7);
    b ^ (b << 17)
}

// A sum after more answers, one after another.
pub fn fold(sum: u64, answers: &[u32]) -> u64 {
    answers
        .iter()
        .fold(sum, |sum, answer| next(sum ^ *answer as u64))
}

fn high(x: u64) -> u32 {
    bits::low(x >> 32)
}

// The given number of values, a power of two, from bit `at` of x up.
pub fn part(x: u64, at: u32, values: u32) -> u32
    requires { (at < 64) × (0 < values) }
    ensures { result < values }
{
    bits::low(x >> at) % values
}

// A power of two, at every bit, less one, itself or with one more.
fn near_power(k: u32) -> u32 {
    let power: u32 = 1 << (k % 32);
    power.wrapping_add(k / 32 % 3).wrapping_sub(1)
}

// Boundary patterns, 256: below 192 those near a power of two, from 96 on with all bits turned over; then the same two digits in every byte.
fn pattern(k: u32) -> u32
    requires { k < 256 }
{
    if 191 < k {
        let high = DIGITS[(k / 8 % 8) as usize];
        let low = DIGITS[(k % 8) as usize];
        return u32::from_be_bytes([high << 4 | low; 4]);
    }
    if 95 < k {
        return !near_power(k);
    }
    near_power(k)
}

// x with bit i set to f.
fn with_bit(x: u32, i: u32, f: u32) -> u32
    requires { i < 32 }
{
    if f == 0 {
        return bits::clear_bit(i, x);
    }
    bits::set_bit(i, x)
}

// A pattern where the lowest of nine drawn bits is set, else the value itself.
fn operand(drawn: u32, value: u32) -> u32
    requires { drawn < 512 }
{
    if drawn % 2 == 1 {
        return pattern(drawn / 2);
    }
    value
}

// One input made too large: which one by `kind`, by how much by s, 1 or 2.
// Kept: a number and no enum, since `kind` is as drawn and only this asks; the fields name the cases.
fn spoilt(word: SingleWord, kind: u32, s: u32) -> SingleWord
    requires { (s < 3) × (0 < s) }
{
    let mut w = word;
    match kind {
        0 => w.code = w.code % 4 + 4 * s,
        1 => w.position = w.position % 64 + 64 * s,
        2 => w.width = w.width % 32 + 32 * s,
        3 => w.select = w.select % 2 + 2 * s,
        4 => w.carry = w.carry % 2 + 2 * s,
        5 => w.link = w.link % 2 + 2 * s,
        6 => w.borrow = w.borrow % 2 + 2 * s,
        _ => {
            w.opcode = w.opcode % 128 + 128;
            w.code = w.code % 4 + 4 * (s - 1);
        }
    }
    w
}

impl Line {
    // As it starts: the generator after sixteen steps.
    pub fn start(opcode: u32) -> Line {
        let mut seed = 0x9e37_79b9_7f4a_7c15 ^ opcode as u64;
        for _ in 0..16 {
            seed = next(seed);
        }
        Line { opcode, seed }
    }

    // Case i of the systematic part: patterns for A in order and for B as drawn, at all byte codes, with carry in, link and switches crossed.
    fn systematic(self, i: u32) -> Case {
        let r1 = next(self.seed);
        let r2 = next(r1);
        let k = i % 32;
        let link = k / 4 % 2;
        let status = with_bit(with_bit(bits::low(r1), 16, k % 2), 20, link);
        Case {
            word: SingleWord {
                opcode: self.opcode,
                code: i / 32 % 4,
                position: part(r2, 0, 64),
                width: part(r2, 6, 32),
                select: k / 8 % 2,
                carry: k / 2 % 2,
                link: 1 - link,
                borrow: k / 16,
                a: pattern(i / 128 % 256),
                b: pattern(part(r2, 11, 256)),
                q: high(r1),
                status,
            },
            how: next(r2),
        }
    }

    // A case of the random part.
    fn random(self) -> Case {
        let r1 = next(self.seed);
        let r2 = next(r1);
        let r3 = next(r2);
        let how = next(r3);
        let word = SingleWord {
            opcode: self.opcode,
            code: part(r3, 11, 4),
            position: part(r3, 0, 64),
            width: part(r3, 6, 32),
            select: part(r3, 13, 2),
            carry: part(r3, 14, 2),
            link: part(r3, 15, 2),
            borrow: part(r3, 16, 2),
            a: operand(part(r3, 17, 512), high(r2)),
            b: operand(part(r3, 26, 512), bits::low(r2)),
            q: operand(part(r3, 35, 512), high(r1)),
            status: bits::low(r1),
        };
        if part(r3, 44, 16) == 0 {
            return Case {
                word: spoilt(word, part(r3, 48, 8), part(r3, 51, 2) + 1),
                how,
            };
        }
        Case { word, how }
    }

    // Its case i.
    pub fn draw_case(self, i: u32) -> Case {
        if i < SYSTEMATIC {
            return self.systematic(i);
        }
        self.random()
    }
}
