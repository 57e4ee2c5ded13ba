// Bit-manipulation instructions (tables 14-1 and 14-2).
ghost use Rattle.std.specs.Prelude.{◌≡◌};
ghost use Rattle.machine.specs.Status.{loaded};
ghost use Rattle.machine.specs.Inputs.{Sound, read_by, leaving};
ghost use Rattle.fields.specs.BitManipulation.{extracted, extract_bit, put_into, put_status, EXTBIT-STAT};

use super::position;
use machine::{Inputs, Outputs, Status};

// The bit of s that the low five position bits name, inverted by the sixth.
fn extracted(x: Inputs, s: u32) -> u32
    requires { Sound x }
    ensures { result ≡ extracted x s }
{
    let p = x.position();
    (bits::bit(p % 32, s) + p / 32) % 2
}

// EXTBIT-A, EXTBIT-B
#[tactic(auto, unfolding(crate::specs::BitManipulation::extract_bit))]
pub fn extract(x: Inputs, s: u32) -> Outputs
    requires { Sound x }
    ensures { result ≡ extract_bit x s }
{
    let f = extracted(x, s);
    let mut status = x.status.held();
    status.z = bits::is_zero(f, 32);
    status.l = f;
    Outputs {
        y: f,
        q: x.q,
        status,
    }
}

// EXTBIT-STAT: no flag but L changes, whatever the page's list says of Z.
pub fn extract_status(x: Inputs) -> Outputs
    requires { Sound x }
    ensures { result ≡ EXTBIT-STAT x }
{
    let f = extracted(x, x.read(x.status));
    let mut status = x.status.held();
    status.l = f;
    Outputs {
        y: f,
        q: x.q,
        status,
    }
}

// SETBIT-A, SETBIT-B: Z is always reset.
#[tactic(auto, unfolding(crate::specs::BitManipulation::put_into))]
pub fn set(x: Inputs, s: u32) -> Outputs
    requires { Sound x }
    ensures { result ≡ put_into x s 1 0 }
{
    position::leave(x, bits::set_bit(position::place(x), s), 0)
}

// RSTBIT-A, RSTBIT-B: Z is always set.
#[tactic(auto, unfolding(crate::specs::BitManipulation::put_into))]
pub fn reset(x: Inputs, s: u32) -> Outputs
    requires { Sound x }
    ensures { result ≡ put_into x s 0 1 }
{
    position::leave(x, bits::clear_bit(position::place(x), s), 1)
}

// A word put into the status register, which drops bits 13, 14, 15 and 23; Y shows the register as it is then read.
#[tactic(auto, using(crate::proofs::Laws::loading))]
fn put_status(x: Inputs, word: u32) -> Outputs
    ensures { result ≡ leaving x (read_by x (loaded word)) (loaded word) }
{
    let status = Status::load(word);
    Outputs {
        y: x.read(status),
        q: x.q,
        status,
    }
}

// SETBIT-STAT
#[tactic(auto, unfolding(crate::specs::BitManipulation::put_status))]
pub fn set_status(x: Inputs) -> Outputs
    requires { Sound x }
    ensures { result ≡ put_status x 1 }
{
    put_status(x, bits::set_bit(position::place(x), x.read(x.status)))
}

// RSTBIT-STAT
#[tactic(auto, unfolding(crate::specs::BitManipulation::put_status))]
pub fn reset_status(x: Inputs) -> Outputs
    requires { Sound x }
    ensures { result ≡ put_status x 0 }
{
    put_status(x, bits::clear_bit(position::place(x), x.read(x.status)))
}
