// Multiply steps (table 12-1, appendix B): the modified Booth algorithm, two bits a step. A value marked * there has the two extra bits of
// the internally extended ALU and is a `u64` here. Public for the chip's dispatch.
// Kept: first step and step, zero and sign extension: a row of the table each; what they share is `partial`.
#![tactic(auto)]

ghost use Rattle.std.specs.Prelude.{◌≡◌, ◌+◌, ◌-◌, ◌*◌, ◌/◌, ◌%◌, ◌^◌, ◌<◌, ◌≤◌, get_or};
ghost use Rattle.machine.specs.Inputs.{bits_of, Sound};
ghost use Rattle.multiply.specs.Multiply.{zero_extended, sign_extended, partial, shifted_by2, first_step, step, SMULFIRST, UMULLAST, multiplies};

use machine::{Inputs, Outputs};

// Room to take from: a multiple of 2 ^ (n + 2) for every n, and above all that is taken.
const ROOM: u64 = 0x100_0000_0000;

#[tactic(auto, using(crate::proofs::Bounds::extending))]
fn zero_extended(n: u32, s: u32) -> u64
    requires { (1 ≤ n) × (n ≤ 32) }
    ensures { (result % 2 ^ (n + 2) ≡ zero_extended n s) × (result ≤ 2 ^ 41) }
{
    u64::from(bits::cut(s, n))
}

// The sign counts once more negative: its weight is taken off twice.
#[tactic(auto, using(crate::proofs::Bounds::signed))]
fn sign_extended(n: u32, s: u32) -> u64
    requires { (1 ≤ n) × (n ≤ 32) }
    ensures { (result % 2 ^ (n + 2) ≡ sign_extended n s) × (result ≤ 2 ^ 41) }
{
    u64::from(bits::cut(s, n)) + (ROOM - 2 * u64::from(bits::sign_bit(s, n)))
}

// F*, from A*, B*, Q and M. The row of the table that Q1 Q0 M picks is A* taken Q0 + M times, less twice A* where Q1 is set.
#[tactic(auto, using(crate::proofs::Rows::picking))]
fn partial(n: u32, a: u64, b: u64, q: u32, m: u32) -> u64
    requires { (n ≤ 32) × (a ≤ 2 ^ 41) × (b ≤ 2 ^ 41) × (m < 2) }
    ensures { result % 2 ^ (n + 2) ≡ partial n (a % 2 ^ (n + 2)) (b % 2 ^ (n + 2)) q m }
{
    let added = u64::from(q % 2 + m) * a;
    let taken = u64::from(q / 2 % 2) * (2 * a);
    b + added + (8 * ROOM - taken)
}

// The selected bits of Q two bits down, f below 4 filling them from above.
#[tactic(auto, using(crate::proofs::Bounds::filled))]
fn down_by_2(n: u32, q: u32, f: u32) -> u32
    requires { (8 ≤ n) × (n ≤ 32) × (f < 4) }
    ensures { result ≡ q % 2 ^ n / 4 + f * 2 ^ (n - 2) }
{
    let k = 32 - n;
    (bits::up(k, q) / 4 + bits::up(30, f)) >> k
}

// F* two bits down on Y; its low two bits fill Q from above; Q1 goes to M.
#[tactic(auto, using(crate::proofs::Bounds::shifting))]
fn shifted_by_2(x: Inputs, n: u32, f: u64) -> Outputs
    requires { (n ≡ bits_of x) × (8 ≤ n) × (n ≤ 32) }
    ensures { result ≡ shifted_by2 x (f % 2 ^ (n + 2)) }
{
    let mut status = x.status.held();
    status.m = bits::bit(1, x.q);
    Outputs {
        y: bits::merge(bits::low(f / 4), x.b, n),
        q: bits::merge(down_by_2(n, x.q, bits::low(f % 4)), x.q, n),
        status,
    }
}

// The first step, from A*: B counts as zero, and M as 0.
#[tactic(auto, using(crate::proofs::Rows::first), unfolding(crate::specs::Multiply::first_step))]
fn first_step(x: Inputs, a: u64) -> Outputs
    requires { Sound x × (a ≤ 2 ^ 41) }
    ensures { result ≡ first_step x (a % 2 ^ (bits_of x + 2)) }
{
    let n = x.bits();
    shifted_by_2(x, n, partial(n, a, 0, x.q, 0))
}

// A step of the inner loop, from A*.
#[tactic(auto, unfolding(crate::specs::Multiply::step))]
fn step(x: Inputs, a: u64) -> Outputs
    requires { Sound x × (a ≤ 2 ^ 41) }
    ensures { result ≡ step x (a % 2 ^ (bits_of x + 2)) }
{
    let n = x.bits();
    shifted_by_2(x, n, partial(n, a, sign_extended(n, x.b), x.q, x.status.m))
}

// UMULLAST: A is added once more where M is set.
#[tactic(auto, using(crate::proofs::Rows::last), unfolding(crate::specs::Multiply::UMULLAST))]
fn last(x: Inputs) -> Outputs
    requires { Sound x }
    ensures { result ≡ UMULLAST x }
{
    let n = x.bits();
    let r = bits::add(x.b, x.status.m * x.a, 0);
    let mut status = x.status.held();
    status.z = bits::is_zero(r, n);
    Outputs {
        y: bits::merge(r, x.b, n),
        q: x.q,
        status,
    }
}

// The family by its place from 5B on: UMULFIRST, UMULSTEP, UMULLAST, SMULSTEP, SMULFIRST.
pub fn multiply(k: u32, x: Inputs) -> Outputs
    requires { Sound x }
    ensures { result ≡ get_or multiplies k SMULFIRST x }
{
    let n = x.bits();
    match k {
        0 => first_step(x, zero_extended(n, x.a)),
        1 => step(x, zero_extended(n, x.a)),
        2 => last(x),
        3 => step(x, sign_extended(n, x.a)),
        _ => first_step(x, sign_extended(n, x.a)),
    }
}
