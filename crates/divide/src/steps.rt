// What the divide steps share (table 11-1, appendix B): F with its carry out, the upshifts, the new quotient bit, and the tests of the
// correction steps. F is held on the data word, as the chip holds it: its promises cut the number that the definitions speak of.
ghost use Rattle.std.specs.Prelude.{◌≡◌, ◌%◌, ◌^◌, ◌<◌, ◌≤◌};
ghost use Rattle.bits.specs.Bits.{choose, zero_of, not_of, put_bit};
ghost use Rattle.machine.specs.Inputs.{bits_of, Sound};
ghost use Rattle.divide.specs.Steps.{formed, carry_out, step_carry, step_link, upshifted, sign_q, upshifted_q, signed_bit, extended_sign, unsigned_bit, printed_test, remainder_test};

use machine::Inputs;

// F and the carry out of it.
#[derive(Clone, Copy)]
pub struct Formed {
    pub value: u32,
    pub carry: u32,
}

// What is added to B: v where m is 0, its complement where m is 1 and v is subtracted.
pub fn operand(v: u32, m: u32) -> u32
    ensures { result ≡ choose m v (not_of v) }
{
    bits::choose(m, v, !v)
}

// B + A or B - A by M, with carry in c, and its carry out at n bits.
#[tactic(auto, using(crate::proofs::Laws::flags))]
pub fn form(x: Inputs, n: u32, c: u32) -> Formed
    requires { (1 ≤ n) × (n ≤ 32) × (c < 2) }
    ensures { (result.value ≡ formed x c % 2 ^ 32) × (result.carry ≡ carry_out x n c) × (result.carry < 2) }
{
    let a = operand(x.a, x.status.m);
    let exact = bits::sum(x.b, a, c);
    Formed {
        value: bits::add(x.b, a, c),
        carry: bits::carry(x.b, a, c, exact, n),
    }
}

// The carry into a multiprecision step: macro select 0 takes the macro carry, the opposite of ADDC's sense (MPDIVSTEP2's page).
pub fn step_carry(x: Inputs) -> u32
    requires { Sound x }
    ensures { (result ≡ step_carry x) × (result < 2) }
{
    bits::choose(x.select, x.carry, x.status.c)
}

// The bit shifted into it: the macro link or the L flag, by the same sense.
pub fn step_link(x: Inputs) -> u32
    requires { Sound x }
    ensures { (result ≡ step_link x) × (result < 2) }
{
    bits::choose(x.select, x.link, x.status.l)
}

// v upshifted by one bit on the data word, the bit f shifted in.
// Kept: `shifts` has the same line under a definition of its own pages; a leaf for both would be under neither.
pub fn shift_up(v: u32, f: u32) -> u32
    requires { f < 2 }
    ensures { result ≡ upshifted v f % 2 ^ 32 }
{
    bits::up(1, v) + f
}

// The top selected bit of Q, which the steps shift into F.
#[tactic(auto, using(crate::proofs::Laws::flags))]
pub fn sign_q(x: Inputs) -> u32
    requires { Sound x }
    ensures { (result ≡ sign_q x) × (result < 2) }
{
    bits::sign(x.q, x.bits())
}

// Q with its selected bytes upshifted, the bit f shifted in.
#[tactic(auto, using(crate::proofs::Laws::wrapping))]
pub fn shift_q(x: Inputs, f: u32) -> u32
    requires { Sound x × (f < 2) }
    ensures { result ≡ upshifted_q x f }
{
    bits::merge(shift_up(x.q, f), x.q, x.bits())
}

// Q with the bit f in its least significant place, not shifted.
#[tactic(auto, unfolding(bits::specs::Bits::put_bit))]
pub fn put_q(x: Inputs, f: u32) -> u32
    requires { f < 2 }
    ensures { result ≡ put_bit 0 f x.q }
{
    x.q / 2 * 2 + f
}

// The new quotient bit of a signed division: the signs of A and v agree.
pub fn signed_bit(x: Inputs, v: u32) -> u32
    requires { Sound x }
    ensures { (result ≡ signed_bit x v) × (result < 2) }
{
    let n = x.bits();
    1 - (bits::sign(x.a, n) + bits::sign(v, n)) % 2
}

// The sign of F extended by one bit, of an unsigned division (UDIVSTEP's note 1).
pub fn extended_sign(x: Inputs, carry: u32) -> u32
    requires { Sound x × (carry < 2) }
    ensures { (result ≡ extended_sign x carry) × (result < 2) }
{
    (x.status.m + x.status.s + carry) % 2
}

// The new quotient bit of an unsigned division: the complement of that sign, as UDIVSTEP's prose has it.
pub fn unsigned_bit(x: Inputs, carry: u32) -> u32
    requires { Sound x × (carry < 2) }
    ensures { (result ≡ unsigned_bit x carry) × (result < 2) }
{
    1 - extended_sign(x, carry)
}

// Z EXOR N EXOR S, the test of QUOCORR.
pub fn printed_test(x: Inputs) -> u32
    requires { Sound x }
    ensures { result ≡ printed_test x }
{
    (x.status.z + x.status.n + x.status.s) % 2
}

// The test of REMCORR: the same, but a remainder with N and S at 0 is right as it is.
#[tactic(auto, using(crate::proofs::Laws::correcting))]
pub fn remainder_test(x: Inputs) -> u32
    requires { Sound x }
    ensures { result ≡ remainder_test x }
{
    let printed = printed_test(x);
    if x.status.n + x.status.s == 0 {
        return 0;
    }
    printed
}

// Z of SDIVLAST2: that of r where the dividend was negative, else 0.
pub fn zero_if_negative(x: Inputs, r: u32) -> u32
    requires { Sound x }
    ensures { result ≡ choose x.status.s 0 (zero_of (bits_of x) r) }
{
    let n = x.bits();
    if x.status.s == 0 {
        0
    } else {
        bits::is_zero(r, n)
    }
}
