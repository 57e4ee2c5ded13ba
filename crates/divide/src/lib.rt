// Divide instructions (table 11-1, appendix B), in opcode order; what they share is in `steps`. Unselected bytes of Y come from B,
// unselected bytes of Q stay. C is the carry out of F, in borrow mode too.
// Kept: a page of the manual each, signed and unsigned too, since their pages differ in Q, M, S or N.
#![tactic(auto)]

mod steps;

ghost use Rattle.std.specs.Prelude.{◌≡◌, ◌%◌, ◌^◌, ◌<◌, get_or};
ghost use Rattle.bits.specs.Bits.{sign_of, zero_of, merged};
ghost use Rattle.machine.specs.Status.{with_c, with_l, with_m, with_s, with_z};
ghost use Rattle.machine.specs.Inputs.{bits_of, Sound};
ghost use Rattle.divide.specs.Steps.{formed, carry_out, upshifted};
ghost use Rattle.divide.specs.Divide.{SDIVFIRST, UDIVFIRST, SDIVSTEP, SDIVLAST1, MPDIVSTEP1, MPSDIVSTEP3, UDIVSTEP, UDIVLAST, MPDIVSTEP2, MPUDIVSTP3, REMCORR, QUOCORR, SDIVLAST2, divides};

use machine::{Inputs, Outputs};
use steps::Formed;

// The family by its place from 4E on. Public for the chip's dispatch. The arms only call and return.
pub fn divide(k: u32, x: Inputs) -> Outputs
    requires { Sound x }
    ensures { result ≡ get_or divides k SDIVLAST2 x }
{
    match k {
        0 => signed_first(x), // 4E SDIVFIRST
        1 => unsigned_first(x), // 4F UDIVFIRST
        2 => signed_step(x), // 50 SDIVSTEP
        3 => signed_last_1(x), // 51 SDIVLAST1
        4 => multiprecision_step_1(x), // 52 MPDIVSTEP1
        5 => multiprecision_signed_step_3(x), // 53 MPSDIVSTEP3
        6 => unsigned_step(x), // 54 UDIVSTEP
        7 => unsigned_last(x), // 55 UDIVLAST
        8 => multiprecision_step_2(x), // 56 MPDIVSTEP2
        9 => multiprecision_unsigned_step_3(x), // 57 MPUDIVSTP3
        10 => correct_remainder(x), // 58 REMCORR
        11 => correct_quotient(x), // 59 QUOCORR
        _ => signed_last_2(x), // 5A SDIVLAST2
    }
}

// SDIVFIRST: S and L get the dividend's sign, the bit shifted out of B.
#[tactic(auto, using(crate::proofs::Laws::wrapping), unfolding(crate::specs::Divide::SDIVFIRST))]
fn signed_first(x: Inputs) -> Outputs
    requires { Sound x }
    ensures { result ≡ SDIVFIRST x }
{
    let bit = steps::signed_bit(x, x.b);
    let out = bits::sign(x.b, x.bits());
    let o = x.result(steps::shift_up(x.b, steps::sign_q(x)), x.b);
    let mut status = o.status.held();
    status.l = out;
    status.m = bit;
    status.s = out;
    Outputs {
        y: o.y,
        q: steps::shift_q(x, bit),
        status,
    }
}

// UDIVFIRST: M is set so that the first step subtracts; S, which extends the partial remainder, starts at 0.
#[tactic(auto, using(crate::proofs::Laws::wrapping), unfolding(crate::specs::Divide::UDIVFIRST))]
fn unsigned_first(x: Inputs) -> Outputs
    requires { Sound x }
    ensures { result ≡ UDIVFIRST x }
{
    let o = x.result(steps::shift_up(x.b, steps::sign_q(x)), x.b);
    let mut status = o.status.held();
    status.l = bits::sign(x.b, x.bits());
    status.m = 1;
    status.s = 0;
    Outputs {
        y: o.y,
        q: steps::shift_q(x, 0),
        status,
    }
}

// SDIVSTEP: Z and N are of Y, after the upshift.
#[tactic(auto, using(crate::proofs::Laws::wrapping), unfolding(crate::specs::Divide::SDIVSTEP))]
fn signed_step(x: Inputs) -> Outputs
    requires { Sound x }
    ensures { result ≡ SDIVSTEP x }
{
    let n = x.bits();
    let f = steps::form(x, n, x.status.m);
    let bit = steps::signed_bit(x, f.value);
    let o = x.result(steps::shift_up(f.value, steps::sign_q(x)), x.b);
    let mut status = o.status.held();
    status.c = f.carry;
    status.l = bits::sign(f.value, n);
    status.m = bit;
    Outputs {
        y: o.y,
        q: steps::shift_q(x, bit),
        status,
    }
}

// SDIVLAST1: F is not shifted, and a 1 is forced into Q for the correction steps (note 2).
#[tactic(auto, using(crate::proofs::Laws::wrapping), unfolding(crate::specs::Divide::SDIVLAST1))]
fn signed_last_1(x: Inputs) -> Outputs
    requires { Sound x }
    ensures { result ≡ SDIVLAST1 x }
{
    let f = steps::form(x, x.bits(), x.status.m);
    let o = x.result(f.value, x.b);
    let mut status = o.status.held();
    status.c = f.carry;
    status.m = steps::signed_bit(x, f.value);
    Outputs {
        y: o.y,
        q: steps::shift_q(x, 1),
        status,
    }
}

// MPDIVSTEP1: the least significant word of the remainder; the byte code is that of Q.
#[tactic(auto, unfolding(crate::specs::Divide::MPDIVSTEP1))]
fn multiprecision_step_1(x: Inputs) -> Outputs
    requires { Sound x }
    ensures { result ≡ MPDIVSTEP1 x }
{
    step_on_word(x, x.status.m, steps::sign_q(x), steps::shift_q(x, 0))
}

// MPSDIVSTEP3: the most significant part of the remainder. MPDIVSTEP1 left the place of the quotient bit in Q vacant (note 1).
#[tactic(auto, using(crate::proofs::Laws::wrapping), unfolding(crate::specs::Divide::MPSDIVSTEP3))]
fn multiprecision_signed_step_3(x: Inputs) -> Outputs
    requires { Sound x }
    ensures { result ≡ MPSDIVSTEP3 x }
{
    let f = steps::form(x, x.bits(), steps::step_carry(x));
    let bit = steps::signed_bit(x, f.value);
    step_on_bytes(x, f, steps::step_link(x), bit, steps::put_q(x, bit))
}

// UDIVSTEP: the bit shifted out of F goes to L and S.
#[tactic(auto, using(crate::proofs::Laws::wrapping), unfolding(crate::specs::Divide::UDIVSTEP))]
fn unsigned_step(x: Inputs) -> Outputs
    requires { Sound x }
    ensures { result ≡ UDIVSTEP x }
{
    let f = steps::form(x, x.bits(), x.status.m);
    let bit = steps::unsigned_bit(x, f.carry);
    link_to_s(step_on_bytes(x, f, steps::sign_q(x), bit, steps::shift_q(x, bit)))
}

// UDIVLAST: F is not shifted; N is the sign of the extended F, for the correction.
#[tactic(auto, using(crate::proofs::Laws::wrapping), unfolding(crate::specs::Divide::UDIVLAST))]
fn unsigned_last(x: Inputs) -> Outputs
    requires { Sound x }
    ensures { result ≡ UDIVLAST x }
{
    let n = x.bits();
    let f = steps::form(x, n, x.status.m);
    let bit = steps::unsigned_bit(x, f.carry);
    let mut status = x.status.held();
    status.n = steps::extended_sign(x, f.carry);
    status.z = bits::is_zero(f.value, n);
    status.c = f.carry;
    status.m = bit;
    status.s = 0;
    Outputs {
        y: bits::merge(f.value, x.b, n),
        q: steps::shift_q(x, bit),
        status,
    }
}

// MPDIVSTEP2: the words between; Q is not affected or used.
#[tactic(auto, unfolding(crate::specs::Divide::MPDIVSTEP2))]
fn multiprecision_step_2(x: Inputs) -> Outputs
    requires { Sound x }
    ensures { result ≡ MPDIVSTEP2 x }
{
    step_on_word(x, steps::step_carry(x), steps::step_link(x), x.q)
}

// MPUDIVSTP3: MPSDIVSTEP3 with the quotient bit and S of UDIVSTEP.
#[tactic(auto, using(crate::proofs::Laws::wrapping), unfolding(crate::specs::Divide::MPUDIVSTP3))]
fn multiprecision_unsigned_step_3(x: Inputs) -> Outputs
    requires { Sound x }
    ensures { result ≡ MPUDIVSTP3 x }
{
    let f = steps::form(x, x.bits(), steps::step_carry(x));
    let bit = steps::unsigned_bit(x, f.carry);
    link_to_s(step_on_bytes(x, f, steps::step_link(x), bit, steps::put_q(x, bit)))
}

// REMCORR: by M the divisor is added to the remainder or taken off it. C is 0 where nothing is added.
#[tactic(auto, using(crate::proofs::Laws::wrapping, crate::proofs::Laws::correcting), unfolding(crate::specs::Divide::REMCORR))]
fn correct_remainder(x: Inputs) -> Outputs
    requires { Sound x }
    ensures { result ≡ REMCORR x }
{
    let mut status = x.status.held();
    if steps::remainder_test(x) == 0 {
        status.c = 0;
        return Outputs {
            y: x.b,
            q: x.q,
            status,
        };
    }
    let n = x.bits();
    let f = steps::form(x, n, x.status.m);
    status.c = f.carry;
    Outputs {
        y: bits::merge(f.value, x.b, n),
        q: x.q,
        status,
    }
}

// QUOCORR: one is taken off the quotient where M is 0, and added where it is 1. C and V are 0 where nothing is.
#[tactic(auto, using(crate::proofs::Laws::wrapping, crate::proofs::Laws::correcting), unfolding(crate::specs::Divide::QUOCORR))]
fn correct_quotient(x: Inputs) -> Outputs
    requires { Sound x }
    ensures { result ≡ QUOCORR x }
{
    let mut status = x.status.held();
    if steps::printed_test(x) == 0 {
        status.c = 0;
        status.v = 0;
        return Outputs {
            y: x.b,
            q: x.q,
            status,
        };
    }
    let n = x.bits();
    let less = 1 - x.status.m;
    let one = steps::operand(1, less);
    let f = bits::add(x.b, one, less);
    let exact = bits::sum(x.b, one, less);
    status.c = bits::carry(x.b, one, less, exact, n);
    status.v = bits::overflow(x.b, one, less, exact, n);
    Outputs {
        y: bits::merge(f, x.b, n),
        q: x.q,
        status,
    }
}

// SDIVLAST2: the divisor's sign is that of Q xor the dividend's in S. Only Z is of use (its page).
#[tactic(auto, using(crate::proofs::Laws::wrapping), unfolding(crate::specs::Divide::SDIVLAST2))]
fn signed_last_2(x: Inputs) -> Outputs
    requires { Sound x }
    ensures { result ≡ SDIVLAST2 x }
{
    let sign = (steps::sign_q(x) + x.status.s) % 2;
    let r = bits::add(x.b, steps::operand(x.a, sign), sign);
    let mut status = x.status.held();
    status.z = steps::zero_if_negative(x, r);
    Outputs {
        y: bits::merge(r, x.b, x.bits()),
        q: x.q,
        status,
    }
}

// The steps that leave N, on the selected bytes: F upshifted with the bit fill, over B; Z of that, C and L of F, the new quotient bit in M.
#[tactic(auto, using(crate::proofs::Laws::wrapping))]
fn step_on_bytes(x: Inputs, f: Formed, fill: u32, bit: u32, q: u32) -> Outputs
    requires { Sound x × (fill < 2) }
    ensures { result ≡ record {
      y = merged (bits_of x) (upshifted f.value fill) x.b;
      q = q;
      status = with_m bit (with_l (sign_of (bits_of x) f.value) (with_c f.carry (with_z (zero_of (bits_of x) (upshifted f.value fill)) x.status)));
    } }
{
    let n = x.bits();
    let r = steps::shift_up(f.value, fill);
    let mut status = x.status.held();
    status.z = bits::is_zero(r, n);
    status.c = f.carry;
    status.l = bits::sign(f.value, n);
    status.m = bit;
    Outputs {
        y: bits::merge(r, x.b, n),
        q,
        status,
    }
}

// The steps on the full word: F with carry in c, upshifted with the bit fill; Z of that, C and L of F.
#[tactic(auto, using(crate::proofs::Laws::wrapping))]
fn step_on_word(x: Inputs, c: u32, fill: u32, q: u32) -> Outputs
    requires { (c < 2) × (fill < 2) }
    ensures { result ≡ record {
      y = upshifted (formed x c) fill % 2 ^ 32;
      q = q;
      status = with_l (sign_of 32 (formed x c)) (with_c (carry_out x 32 c) (with_z (zero_of 32 (upshifted (formed x c) fill % 2 ^ 32)) x.status));
    } }
{
    let f = steps::form(x, 32, c);
    let y = steps::shift_up(f.value, fill);
    let mut status = x.status.held();
    status.z = bits::is_zero(y, 32);
    status.c = f.carry;
    status.l = bits::sign(f.value, 32);
    Outputs { y, q, status }
}

// The unsigned steps: the bit shifted out of F, in L, extends the next partial remainder.
fn link_to_s(o: Outputs) -> Outputs
    ensures { result ≡ record { y = o.y; q = o.q; status = with_s o.status.l o.status } }
{
    let mut status = o.status.held();
    status.s = status.l;
    Outputs {
        y: o.y,
        q: o.q,
        status,
    }
}
