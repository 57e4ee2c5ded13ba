// The chip: one decision over the 128 opcode numbers, what each operation does, and the single word as an entry point.
#![tactic(auto)]

ghost use Rattle.std.specs.Prelude.{◌≡◌, get_or};
ghost use Rattle.reasons.specs.Reasons.{check_numbers};
ghost use Rattle.machine.specs.Inputs.{Sound};
ghost use Rattle.machine.specs.Pins.{pins_in};
ghost use Rattle.arithmetic.specs.Arithmetic.{SUBRC};
ghost use Rattle.chip.specs.Operations.{decoded_of, basics, meaning_of};
ghost use Rattle.chip.specs.Glossary.{perform_of};
ghost use Rattle.chip.specs.Single.{lacks_page, out_of_range, refused_as, single_inputs, single_shown, performed, single_of, single_outcome};

use machine::{Inputs, Machine, Outputs, Status};
use reasons::{Reason, Refusal};

// The fields of one word of a sheet.
// Kept: `Word`, `SingleWord` and the chip's `Inputs` share nine fields and are no common type: C lays the first two out (include/am29332.h).
#[repr(C)]
#[derive(Clone, Copy)]
pub struct Word {
    pub opcode: u32,
    pub code: u32,
    pub position: u32,
    pub width: u32,
    pub a: u32,
    pub b: u32,
    pub y: u32,
    pub write: u32,
    pub select: u32,
    pub carry: u32,
    pub link: u32,
    pub borrow: u32,
}

// A single word, with any values: its opcode and byte code, position and width, macro select, carry and link, borrow; the A and B
// inputs; Q and the status register.
#[repr(C)]
#[derive(Clone, Copy)]
pub struct SingleWord {
    pub opcode: u32,
    pub code: u32,
    pub position: u32,
    pub width: u32,
    pub select: u32,
    pub carry: u32,
    pub link: u32,
    pub borrow: u32,
    pub a: u32,
    pub b: u32,
    pub q: u32,
    pub status: u32,
}

// Its answer. The parity has a bit for each byte of Y, the highest byte's in bit 3; the pins C, Z, N, V and L are bits 4 to 0.
#[derive(Clone, Copy)]
pub struct SingleAnswer {
    pub check: Result<(), Refusal>,
    pub y: u32,
    pub parity: u32,
    pub q: u32,
    pub status: u32,
    pub pins: u32,
}

// An operation with a page in chapter 2: its family, and its place there. `Basic` are the instructions of the data movement, logical,
// prioritize and arithmetic sections, which chapter 1 numbers from 00 and from 3C.
#[derive(Clone, Copy)]
pub enum Operation {
    Basic(u32),
    Shift(u32),
    Decimal(u32),
    Divide(u32),
    Multiply(u32),
    Field(u32),
}

// One decision over the opcode numbers (document 01's form): the operation, or Opcode.
pub fn decode(n: u32) -> Result<Operation, Reason>
    ensures { result ≡ decoded_of n }
{
    match n {
        0x00..=0x1d => Ok(Operation::Basic(n)),
        0x20..=0x3b => Ok(Operation::Shift(n - 0x20)),
        0x3c..=0x47 => Ok(Operation::Basic(n - 0x1e)),
        0x48..=0x4b => Ok(Operation::Decimal(n - 0x48)),
        0x4e..=0x5a => Ok(Operation::Divide(n - 0x4e)),
        0x5b..=0x5f => Ok(Operation::Multiply(n - 0x5b)),
        0x60..=0x7f => Ok(Operation::Field(n - 0x60)),
        _ => Err(Reason::Opcode),
    }
}

// Whether an opcode number has no page in chapter 2 (reason Opcode): what `decode` answers, as a test.
#[tactic(auto, using(crate::proofs::Pages::lacking))]
pub fn lacks_page(n: u32) -> bool
    ensures { result ≡ lacks_page n }
{
    decode(n).is_err()
}

// The basic instructions by their place: 00 to 1D, then 3C to 47.
// Kept: here and in the families an operation is a number and a `match` goes over them: the manual numbers them, and the run's jump is made of it.
pub fn basic(k: u32, x: Inputs) -> Outputs
    requires { Sound x }
    ensures { result ≡ get_or basics k SUBRC x }
{
    match k {
        0x00 => movement::zero_extend(x, x.a), // 00 ZERO-EXTA
        0x01 => movement::zero_extend(x, x.b), // 01 ZERO-EXTB
        0x02 => movement::sign_extend(x, x.a), // 02 SIGN-EXTA
        0x03 => movement::sign_extend(x, x.b), // 03 SIGN-EXTB
        0x04 => movement::pass_status(x), // 04 PASS-STAT
        0x05 => movement::pass_q(x), // 05 PASS-Q
        0x06 => movement::load_q(x, x.a), // 06 LOADQ-A
        0x07 => movement::load_q(x, x.b), // 07 LOADQ-B
        0x08 => movement::not(x, x.a), // 08 NOT-A
        0x09 => movement::not(x, x.b), // 09 NOT-B
        0x0a => arithmetic::negate(x, x.a), // 0A NEG-A
        0x0b => arithmetic::negate(x, x.b), // 0B NEG-B
        0x0c => movement::prioritize(x, x.a), // 0C PRIOR-A
        0x0d => movement::prioritize(x, x.b), // 0D PRIOR-B
        0x0e => movement::merge(x, x.a, x.b), // 0E MERGEA-B
        0x0f => movement::merge(x, x.b, x.a), // 0F MERGEB-A
        0x10 => arithmetic::decrement(x, x.a, 1), // 10 DECR-A
        0x11 => arithmetic::decrement(x, x.b, 1), // 11 DECR-B
        0x12 => arithmetic::increment(x, x.a, 1), // 12 INCR-A
        0x13 => arithmetic::increment(x, x.b, 1), // 13 INCR-B
        0x14 => arithmetic::decrement(x, x.a, 2), // 14 DECR2-A
        0x15 => arithmetic::decrement(x, x.b, 2), // 15 DECR2-B
        0x16 => arithmetic::increment(x, x.a, 2), // 16 INCR2-A
        0x17 => arithmetic::increment(x, x.b, 2), // 17 INCR2-B
        0x18 => arithmetic::decrement(x, x.a, 4), // 18 DECR4-A
        0x19 => arithmetic::decrement(x, x.b, 4), // 19 DECR4-B
        0x1a => arithmetic::increment(x, x.a, 4), // 1A INCR4-A
        0x1b => arithmetic::increment(x, x.b, 4), // 1B INCR4-B
        0x1c => movement::load_status(x, x.a), // 1C LDSTAT-A
        0x1d => movement::load_status(x, x.b), // 1D LDSTAT-B
        0x1e => movement::zero(x), // 3C ZERO
        0x1f => movement::sign(x), // 3D SIGN
        0x20 => movement::or(x), // 3E OR
        0x21 => movement::xor(x), // 3F XOR
        0x22 => movement::and(x), // 40 AND
        0x23 => movement::xnor(x), // 41 XNOR
        0x24 => arithmetic::add(x), // 42 ADD
        0x25 => arithmetic::add_with_carry(x), // 43 ADDC
        0x26 => arithmetic::subtract(x), // 44 SUB
        0x27 => arithmetic::subtract_with_carry(x), // 45 SUBC
        0x28 => arithmetic::subtract_reverse(x), // 46 SUBR
        _ => arithmetic::subtract_reverse_with_carry(x), // 47 SUBRC
    }
}

// What an operation does: its family is asked for it by its place. A run has a dispatch of its own (`dispatch::operate`).
fn perform(operation: Operation, x: Inputs) -> Outputs
    requires { Sound x }
    ensures { result ≡ meaning_of operation x }
{
    match operation {
        Operation::Basic(k) => basic(k, x),
        Operation::Shift(k) => shifts::shift(k, x),
        Operation::Decimal(k) => arithmetic::decimal(k, x),
        Operation::Divide(k) => divide::divide(k, x),
        Operation::Multiply(k) => multiply::multiply(k, x),
        Operation::Field(k) => fields::field(k, x),
    }
}

// A byte code, a position, a width or a switch that is too large. `|` tests all, without a branch for each.
// Kept: seven arguments, since `Word` and `SingleWord` have them in different places.
#[tactic(auto, unfolding(crate::specs::Single::out_of_range))]
pub fn out_of_range(
    code: u32,
    position: u32,
    width: u32,
    select: u32,
    carry: u32,
    link: u32,
    borrow: u32,
) -> bool
    ensures { result ≡ out_of_range code position width select carry link borrow }
{
    (3 < code)
        | (63 < position)
        | (31 < width)
        | (1 < select)
        | (1 < carry)
        | (1 < link)
        | (1 < borrow)
}

// A refusal repeats Q and status as they were handed in, and its pins show that status.
fn refuse(word: SingleWord, reason: Reason) -> SingleAnswer
    ensures { result ≡ refused_as reason word }
{
    SingleAnswer {
        check: Err(Refusal { reason, place: 0 }),
        y: 0,
        parity: 0,
        q: word.q,
        status: word.status,
        pins: Status::pins_in(word.status),
    }
}

// What stands at the chip for a single word.
fn inputs(s: SingleWord) -> Inputs
    ensures { result ≡ single_inputs s }
{
    let machine = Machine {
        q: s.q,
        status: s.status,
    };
    let core = machine.enter();
    Inputs {
        code: s.code,
        position: s.position,
        width: s.width,
        select: s.select,
        carry: s.carry,
        link: s.link,
        borrow: s.borrow,
        a: s.a,
        b: s.b,
        q: core.q,
        status: core.status,
    }
}

// The answer of a word whose opcode has a page and whose inputs are in range.
#[tactic(auto, using(crate::proofs::Single::answering))]
fn answer(operation: Operation, s: SingleWord) -> SingleAnswer
    requires { (decoded_of s.opcode ≡ Ok operation) × Sound (single_inputs s) }
    ensures { result ≡ performed (single_shown s) }
{
    let x = inputs(s);
    let shown = perform(operation, x).shown(s.borrow);
    SingleAnswer {
        check: Ok(()),
        y: shown.y,
        parity: bits::parity(shown.y),
        q: shown.core.q,
        status: shown.status(),
        pins: shown.core.status.pins(),
    }
}

// A word whose opcode has a page.
#[tactic(auto, using(crate::proofs::Single::admitting))]
fn admit(operation: Operation, s: SingleWord) -> SingleAnswer
    requires { decoded_of s.opcode ≡ Ok operation }
    ensures { result ≡ single_of s }
{
    if out_of_range(
        s.code, s.position, s.width, s.select, s.carry, s.link, s.borrow,
    ) {
        return refuse(s, Reason::Inputs);
    }
    answer(operation, s)
}

// The single word, with any values: refused with its reason, or Y, parity, Q, status and pins.
#[tactic(auto, using(crate::proofs::Single::single))]
pub fn single_word(s: SingleWord) -> SingleAnswer
    ensures value { result ≡ single_of s }
    ensures numbers { check_numbers result.check ≡ single_outcome s }
    ensures pins { result.pins ≡ pins_in result.status }
{
    match decode(s.opcode) {
        Err(_) => refuse(s, Reason::Opcode),
        Ok(operation) => admit(operation, s),
    }
}
