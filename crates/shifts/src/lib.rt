// Single-bit shift instructions (tables 8-1 and 8-2). `shift` is the family's dispatch, public for the chip's; the four operations
// behind it take what stands at the chip, the source that the mnemonic names and the bit that is shifted in.
// Kept: four operations, and the arithmetic shift of each of two: tables 8-1 and 8-2 have a formula for each.
#![tactic(auto)]

ghost use Rattle.std.specs.Prelude.{◌≡◌, ◌%◌, ◌^◌, ◌<◌, ◌≤◌, get_or};
ghost use Rattle.bits.specs.Bits.{sign_of};
ghost use Rattle.machine.specs.Inputs.{Sound, bits_of};
ghost use Rattle.shifts.specs.SingleBit.{downshifted, upshifted, down, down_q, up, up_q, shifts, UP1-LF-BQ};

use machine::{Inputs, Outputs};

// The n selected bits of s downshifted by one bit, with f shifted in at the top.
#[tactic(auto, using(crate::proofs::Fill::filled), unfolding(crate::specs::SingleBit::downshifted))]
fn downshifted(s: u32, f: u32, n: u32) -> u32
    requires { (1 ≤ n) × (n ≤ 32) × (f < 2) }
    ensures { result ≡ downshifted n s f }
{
    bits::cut(s, n) / 2 + bits::up(n - 1, f)
}

// The data word s upshifted by one bit, with f shifted in at bit 0: bit 31 is lost.
fn upshifted(s: u32, f: u32) -> u32
    requires { f < 2 }
    ensures { result ≡ upshifted s f % 2 ^ 32 }
{
    bits::up(1, s) + f
}

// DN1-0F, DN1-1F and DN1-LF of A or B: L gets the source's least significant bit.
#[tactic(auto, unfolding(crate::specs::SingleBit::down))]
fn down(x: Inputs, s: u32, f: u32) -> Outputs
    requires { Sound x × (f < 2) }
    ensures { result ≡ down x s f }
{
    let n = x.bits();
    let o = x.result(downshifted(s, f, n), s);
    let mut status = o.status.held();
    status.l = s % 2;
    Outputs {
        y: o.y,
        q: o.q,
        status,
    }
}

// The same of A, Q or B, Q: the source's least significant bit goes into Q at the top, and Q's into L.
#[tactic(auto, unfolding(crate::specs::SingleBit::down, crate::specs::SingleBit::down_q))]
fn down_over_q(x: Inputs, s: u32, f: u32) -> Outputs
    requires { Sound x × (f < 2) }
    ensures { result ≡ down_q x s f }
{
    let n = x.bits();
    let o = down(x, s, f);
    let q = x.q;
    let mut status = o.status.held();
    status.l = q % 2;
    Outputs {
        y: o.y,
        q: bits::merge(downshifted(q, s % 2, n), q, n),
        status,
    }
}

// DN1-AR-A, DN1-AR-B: the operand's sign bit is shifted in, as their pages say, and not the N flag of table 8-1.
fn down_arithmetic(x: Inputs, s: u32) -> Outputs
    requires { Sound x }
    ensures { result ≡ down x s (sign_of (bits_of x) s) }
{
    let sign = bits::sign(s, x.bits());
    down(x, s, sign)
}

// DN1-AR-AQ, DN1-AR-BQ: the same over Q (table 8-2).
fn down_arithmetic_over_q(x: Inputs, s: u32) -> Outputs
    requires { Sound x }
    ensures { result ≡ down_q x s (sign_of (bits_of x) s) }
{
    let sign = bits::sign(s, x.bits());
    down_over_q(x, s, sign)
}

// UP1 of A or B: L gets the source's sign bit, V that bit xor the sign bit of Y.
#[tactic(auto, using(crate::proofs::Fill::wrapped), unfolding(crate::specs::SingleBit::up))]
fn up(x: Inputs, s: u32, f: u32) -> Outputs
    requires { Sound x × (f < 2) }
    ensures { result ≡ up x s f }
{
    let n = x.bits();
    let r = upshifted(s, f);
    let o = x.result(r, s);
    let l = bits::sign(s, n);
    let mut status = o.status.held();
    status.v = (l + bits::sign(r, n)) % 2;
    status.l = l;
    Outputs {
        y: o.y,
        q: o.q,
        status,
    }
}

// UP1 of A, Q or B, Q: Q's sign bit goes into the source at bit 0, and f into Q.
#[tactic(auto, using(crate::proofs::Fill::wrapped), unfolding(crate::specs::SingleBit::up, crate::specs::SingleBit::up_q))]
fn up_over_q(x: Inputs, s: u32, f: u32) -> Outputs
    requires { Sound x × (f < 2) }
    ensures { result ≡ up_q x s f }
{
    let n = x.bits();
    let o = up(x, s, bits::sign(x.q, n));
    Outputs {
        y: o.y,
        q: bits::merge(upshifted(x.q, f), x.q, n),
        status: o.status,
    }
}

// The family's dispatch: k counts from opcode 20 (hex) on. DN1-LF fills with the link that macro select chooses, UP1-LF with the L
// flag always: its pages have no macro note.
pub fn shift(k: u32, x: Inputs) -> Outputs
    requires { Sound x }
    ensures { result ≡ get_or shifts k UP1-LF-BQ x }
{
    match k {
        0 => down(x, x.a, 0), // DN1-0F-A
        1 => down(x, x.b, 0), // DN1-0F-B
        2 => down_over_q(x, x.a, 0), // DN1-0F-AQ
        3 => down_over_q(x, x.b, 0), // DN1-0F-BQ
        4 => down(x, x.a, 1), // DN1-1F-A
        5 => down(x, x.b, 1), // DN1-1F-B
        6 => down_over_q(x, x.a, 1), // DN1-1F-AQ
        7 => down_over_q(x, x.b, 1), // DN1-1F-BQ
        8 => down(x, x.a, x.link_in()), // DN1-LF-A
        9 => down(x, x.b, x.link_in()), // DN1-LF-B
        10 => down_over_q(x, x.a, x.link_in()), // DN1-LF-AQ
        11 => down_over_q(x, x.b, x.link_in()), // DN1-LF-BQ
        12 => down_arithmetic(x, x.a), // DN1-AR-A
        13 => down_arithmetic(x, x.b), // DN1-AR-B
        14 => down_arithmetic_over_q(x, x.a), // DN1-AR-AQ
        15 => down_arithmetic_over_q(x, x.b), // DN1-AR-BQ
        16 => up(x, x.a, 0), // UP1-0F-A
        17 => up(x, x.b, 0), // UP1-0F-B
        18 => up_over_q(x, x.a, 0), // UP1-0F-AQ
        19 => up_over_q(x, x.b, 0), // UP1-0F-BQ
        20 => up(x, x.a, 1), // UP1-1F-A
        21 => up(x, x.b, 1), // UP1-1F-B
        22 => up_over_q(x, x.a, 1), // UP1-1F-AQ
        23 => up_over_q(x, x.b, 1), // UP1-1F-BQ
        24 => up(x, x.a, x.status.l), // UP1-LF-A
        25 => up(x, x.b, x.status.l), // UP1-LF-B
        26 => up_over_q(x, x.a, x.status.l), // UP1-LF-AQ
        _ => up_over_q(x, x.b, x.status.l), // UP1-LF-BQ
    }
}
