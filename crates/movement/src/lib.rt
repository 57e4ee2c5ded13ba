// Data movement, logical and prioritize instructions (tables 6, 7 and 9). Public for the chip's dispatch, which hands over what stands
// at the chip and the source that the mnemonic names.
// Kept: or, xor, and, xnor and the others of one line are a page of the manual each; one function that takes the operation would be no plainer.
#![tactic(auto)]

ghost use Rattle.std.specs.Prelude.{◌≡◌};
ghost use Rattle.bits.specs.Bits.{not_of, merged};
ghost use Rattle.machine.specs.Inputs.{Sound, bits_of, read_by, leaving, result_of};
ghost use Rattle.movement.specs.DataMovement.{zero_extend, sign_extend, PASS-STAT, PASS-Q, load_q, load_status};
ghost use Rattle.movement.specs.Logical.{ZERO, SIGN, OR, XOR, AND, XNOR};
ghost use Rattle.movement.specs.Prioritize.{prioritize};

use machine::{Inputs, Outputs, Status};

// ZERO-EXTA, ZERO-EXTB
#[tactic(auto, unfolding(crate::specs::DataMovement::zero_extend))]
pub fn zero_extend(x: Inputs, s: u32) -> Outputs
    requires { Sound x }
    ensures { result ≡ zero_extend x s }
{
    x.result(s, 0)
}

// SIGN-EXTA, SIGN-EXTB: Z and N are of the whole Y bus.
#[tactic(auto, unfolding(crate::specs::DataMovement::sign_extend))]
pub fn sign_extend(x: Inputs, s: u32) -> Outputs
    requires { Sound x }
    ensures { result ≡ sign_extend x s }
{
    let n = x.bits();
    let y = bits::merge(s, bits::spread(bits::sign(s, n)), n);
    let mut status = x.status.held();
    status.z = bits::is_zero(y, 32);
    status.n = bits::sign(y, 32);
    Outputs { y, q: x.q, status }
}

// s over B; no flag changes.
fn pass(x: Inputs, s: u32) -> Outputs
    requires { Sound x }
    ensures { result ≡ leaving x (merged (bits_of x) s x.b) x.status }
{
    Outputs {
        y: bits::merge(s, x.b, x.bits()),
        q: x.q,
        status: x.status,
    }
}

pub fn pass_status(x: Inputs) -> Outputs
    requires { Sound x }
    ensures { result ≡ PASS-STAT x }
{
    pass(x, x.read(x.status))
}

pub fn pass_q(x: Inputs) -> Outputs
    requires { Sound x }
    ensures { result ≡ PASS-Q x }
{
    pass(x, x.q)
}

// LOADQ-A, LOADQ-B
#[tactic(auto, unfolding(crate::specs::DataMovement::load_q))]
pub fn load_q(x: Inputs, s: u32) -> Outputs
    requires { Sound x }
    ensures { result ≡ load_q x s }
{
    let o = x.result(s, x.q);
    Outputs {
        y: o.y,
        q: o.y,
        status: o.status,
    }
}

// MERGEA-B, MERGEB-A
pub fn merge(x: Inputs, s: u32, u: u32) -> Outputs
    requires { Sound x }
    ensures { result ≡ result_of x s u }
{
    x.result(s, u)
}

// What is loaded into the status register: s in the selected bytes, over the register as it is read. Where all four are selected, as in a
// handler's last word, the register need not be read.
fn over_status(x: Inputs, s: u32) -> u32
    requires { Sound x }
    ensures { result ≡ merged (bits_of x) s (read_by x x.status) }
{
    if x.code == 0 {
        return s;
    }
    bits::merge(s, x.read(x.status), x.bits())
}

// LDSTAT-A, LDSTAT-B: Y shows the operand's bytes as they are, the register takes them without bits 13, 14, 15 and 23.
#[tactic(auto, unfolding(crate::specs::DataMovement::load_status))]
pub fn load_status(x: Inputs, s: u32) -> Outputs
    requires { Sound x }
    ensures { result ≡ load_status x s }
{
    let y = over_status(x, s);
    Outputs {
        y,
        q: x.q,
        status: Status::load(y),
    }
}

// NOT-A, NOT-B
pub fn not(x: Inputs, s: u32) -> Outputs
    requires { Sound x }
    ensures { result ≡ result_of x (not_of s) s }
{
    x.result(!s, s)
}

pub fn zero(x: Inputs) -> Outputs
    requires { Sound x }
    ensures { result ≡ ZERO x }
{
    x.result(0, x.b)
}

// SIGN: the N flag, not the sign of B, whatever the page's title says.
#[tactic(auto, unfolding(crate::specs::Logical::SIGN))]
pub fn sign(x: Inputs) -> Outputs
    requires { Sound x }
    ensures { result ≡ SIGN x }
{
    let n = x.bits();
    let mut status = x.status.held();
    status.z = 1 - x.status.n;
    Outputs {
        y: bits::merge(bits::spread(x.status.n), x.b, n),
        q: x.q,
        status,
    }
}

pub fn or(x: Inputs) -> Outputs
    requires { Sound x }
    ensures { result ≡ OR x }
{
    x.result(x.a | x.b, x.b)
}

pub fn xor(x: Inputs) -> Outputs
    requires { Sound x }
    ensures { result ≡ XOR x }
{
    x.result(x.a ^ x.b, x.b)
}

pub fn and(x: Inputs) -> Outputs
    requires { Sound x }
    ensures { result ≡ AND x }
{
    x.result(x.a & x.b, x.b)
}

pub fn xnor(x: Inputs) -> Outputs
    requires { Sound x }
    ensures { result ≡ XNOR x }
{
    x.result(!(x.a ^ x.b), x.b)
}

// PRIOR-A, PRIOR-B
#[tactic(auto, unfolding(crate::specs::Prioritize::prioritize))]
pub fn prioritize(x: Inputs, s: u32) -> Outputs
    requires { Sound x }
    ensures { result ≡ prioritize x s }
{
    let n = x.bits();
    let code = bits::priority(s, n);
    let mut status = x.status.held();
    status.position = code;
    status.z = bits::is_zero(s, n);
    Outputs {
        y: code,
        q: x.q,
        status,
    }
}
