// Arithmetic instructions (tables 10-1 and 10-2, appendix A). Public for the chip's dispatch, which hands over what stands at the chip and
// the source that the mnemonic names.
// Kept: sum and difference, increment and decrement, the two corrections, and subtractions either way round are a page or a formula of the manual
// each; what they share is in `added`, `corrected` and `borrow_in`.
#![tactic(auto)]

mod nibbles; // the nibble bits

ghost use Rattle.std.specs.Prelude.{◌≡◌, ◌+◌, ◌%◌, ◌^◌, ◌<◌, get_or};
ghost use Rattle.machine.specs.Inputs.{Sound};
ghost use Rattle.arithmetic.specs.Arithmetic.{added, sum, difference, increment, decrement, negate, borrow_in, ADD, ADDC, SUB, SUBC, SUBR, SUBRC};
ghost use Rattle.arithmetic.specs.Decimal.{corrected, top_nibble, correction, sum_correct, diff_correct, decimals, DIFF-CORR-B};

use machine::{Inputs, Outputs};

// What a sum p + r + c leaves, from its wrapped value s: cut to the selected bytes, C and V worked out apart. C is inverted where i is 1.
#[tactic(auto, using(crate::proofs::Bounds::wrapping))]
fn added(x: Inputs, p: u32, r: u32, c: u32, i: u32, s: u32, nibbles: u32, u: u32) -> Outputs
    requires { Sound x × (c < 2) × (i < 2) × (s ≡ (p + r + c) % 2 ^ 32) }
    ensures { result ≡ added x p r c i nibbles u }
{
    let n = x.bits();
    let exact = bits::sum(p, r, c);
    let mut status = x.status.held();
    status.z = bits::is_zero(s, n);
    status.n = bits::sign(s, n);
    status.c = (bits::carry(p, r, c, exact, n) + i) % 2;
    status.v = bits::overflow(p, r, c, exact, n);
    status.nibbles = nibbles;
    Outputs {
        y: bits::merge(s, u, n),
        q: x.q,
        status,
    }
}

// p + r + c in the selected bytes, u in the others.
#[tactic(auto, unfolding(crate::specs::Arithmetic::sum))]
fn sum(x: Inputs, p: u32, r: u32, c: u32, i: u32, u: u32) -> Outputs
    requires { Sound x × (c < 2) × (i < 2) }
    ensures { result ≡ sum x p r c i u }
{
    let s = bits::add(p, r, c);
    let nibbles = nibbles::nibble_carries(p, r, c, bits::sum(p, r, c));
    added(x, p, r, c, i, s, nibbles, u)
}

// p - r where c is 1, and one less where it is 0.
#[tactic(auto, unfolding(crate::specs::Arithmetic::difference))]
fn difference(x: Inputs, p: u32, r: u32, c: u32, u: u32) -> Outputs
    requires { Sound x × (c < 2) }
    ensures { result ≡ difference x p r c u }
{
    let s = bits::subtract(p, r, c);
    let nibbles = nibbles::nibble_borrows(p, r, c, bits::sum(p, !r, c));
    added(x, p, !r, c, x.borrow, s, nibbles, u)
}

// INCR-A to INCR4-B
pub fn increment(x: Inputs, s: u32, k: u32) -> Outputs
    requires { Sound x }
    ensures { result ≡ increment x s k }
{
    sum(x, s, k, 0, x.borrow, s)
}

// DECR-A to DECR4-B
pub fn decrement(x: Inputs, s: u32, k: u32) -> Outputs
    requires { Sound x }
    ensures { result ≡ decrement x s k }
{
    difference(x, s, k, 1, s)
}

// NEG-A, NEG-B
pub fn negate(x: Inputs, s: u32) -> Outputs
    requires { Sound x }
    ensures { result ≡ negate x s }
{
    difference(x, 0, s, 1, s)
}

pub fn add(x: Inputs) -> Outputs
    requires { Sound x }
    ensures { result ≡ ADD x }
{
    sum(x, x.a, x.b, 0, 0, x.b)
}

pub fn add_with_carry(x: Inputs) -> Outputs
    requires { Sound x }
    ensures { result ≡ ADDC x }
{
    sum(x, x.a, x.b, x.carry_in(), 0, x.b)
}

pub fn subtract(x: Inputs) -> Outputs
    requires { Sound x }
    ensures { result ≡ SUB x }
{
    difference(x, x.a, x.b, 1, x.b)
}

// The carry taken in, macro or micro: in borrow mode it is inverted before it enters the adder.
fn borrow_in(x: Inputs) -> u32
    requires { Sound x }
    ensures { (result ≡ borrow_in x) × (result < 2) }
{
    (x.carry_in() + x.borrow) % 2
}

pub fn subtract_with_carry(x: Inputs) -> Outputs
    requires { Sound x }
    ensures { result ≡ SUBC x }
{
    difference(x, x.a, x.b, borrow_in(x), x.b)
}

pub fn subtract_reverse(x: Inputs) -> Outputs
    requires { Sound x }
    ensures { result ≡ SUBR x }
{
    difference(x, x.b, x.a, 1, x.b)
}

pub fn subtract_reverse_with_carry(x: Inputs) -> Outputs
    requires { Sound x }
    ensures { result ≡ SUBRC x }
{
    difference(x, x.b, x.a, borrow_in(x), x.b)
}

// What a correction leaves, from its wrapped value r; V is of the two most significant selected nibble bits.
fn corrected(x: Inputs, r: u32, c: u32, s: u32) -> Outputs
    requires { Sound x }
    ensures { result ≡ corrected x r c s }
{
    let n = x.bits();
    let mut status = x.status.held();
    status.z = bits::is_zero(r, n);
    status.n = bits::sign(r, n);
    status.c = c;
    status.v = (top_nibble(x) + bits::bit(n - 8, x.status.nibbles)) % 2;
    Outputs {
        y: bits::merge(r, s, n),
        q: x.q,
        status,
    }
}

// The most significant nibble bit of the selected bytes.
#[tactic(auto, using(crate::proofs::Bounds::wrapping))]
fn top_nibble(x: Inputs) -> u32
    requires { Sound x }
    ensures { (result ≡ top_nibble x) × (result < 2) }
{
    bits::bit(x.bits() - 4, x.status.nibbles)
}

// The correction word: a 6 in each nibble whose bit is set.
#[tactic(auto, using(crate::proofs::Bounds::spread_six))]
fn correction(x: Inputs) -> u32
    requires { Sound x }
    ensures { result ≡ correction x }
{
    6 * x.status.nibbles
}

// SUM-CORR-A, SUM-CORR-B
#[tactic(auto, using(crate::proofs::Bounds::wrapping), unfolding(crate::specs::Decimal::sum_correct))]
fn sum_correct(x: Inputs, s: u32) -> Outputs
    requires { Sound x }
    ensures { result ≡ sum_correct x s }
{
    let r = bits::add(s, correction(x), 0);
    corrected(x, r, top_nibble(x), s)
}

// DIFF-CORR-A, DIFF-CORR-B: C is the EX-NOR of the most significant nibble borrow and borrow mode.
#[tactic(auto, using(crate::proofs::Bounds::wrapping), unfolding(crate::specs::Decimal::diff_correct))]
fn diff_correct(x: Inputs, s: u32) -> Outputs
    requires { Sound x }
    ensures { result ≡ diff_correct x s }
{
    let r = bits::subtract(s, correction(x), 1);
    corrected(x, r, 1 - (top_nibble(x) + x.borrow) % 2, s)
}

// The decimal corrections, from opcode 48 on.
pub fn decimal(k: u32, x: Inputs) -> Outputs
    requires { Sound x }
    ensures { result ≡ get_or decimals k DIFF-CORR-B x }
{
    match k {
        0 => sum_correct(x, x.a),
        1 => sum_correct(x, x.b),
        2 => diff_correct(x, x.a),
        _ => diff_correct(x, x.b),
    }
}
