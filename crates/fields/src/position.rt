// What the variable-length instructions share: the position as five bits, and what they leave.
ghost use Rattle.std.specs.Prelude.{◌≡◌, ◌<◌};
ghost use Rattle.bits.specs.Bits.{sign_of};
ghost use Rattle.machine.specs.Status.{with_n, with_z};
ghost use Rattle.machine.specs.Inputs.{Sound, leaving};
ghost use Rattle.fields.specs.Position.{place_of, whole_result};

use machine::{Inputs, Outputs};

// The low five position bits: the bit that is meant, or the first one of an aligned field.
pub fn place(x: Inputs) -> u32
    requires { Sound x }
    ensures { (result ≡ place_of x) × (result < 32) }
{
    x.position() % 32
}

// y on the Y bus with the Z that its page gives; N is bit 31 of Y.
pub fn leave(x: Inputs, y: u32, z: u32) -> Outputs
    ensures { result ≡ leaving x y (with_z z (with_n (sign_of 32 y) x.status)) }
{
    let mut status = x.status.held();
    status.n = bits::sign(y, 32);
    status.z = z;
    Outputs { y, q: x.q, status }
}

// y on the Y bus, Z and N of all of it.
pub fn leave_whole(x: Inputs, y: u32) -> Outputs
    ensures { result ≡ whole_result x y }
{
    leave(x, y, bits::is_zero(y, 32))
}
