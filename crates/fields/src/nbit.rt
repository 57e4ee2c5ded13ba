// N-bit shifts and rotates of the full word (table 13).
ghost use Rattle.std.specs.Prelude.{◌≡◌, ◌<◌, ◌≤◌};
ghost use Rattle.machine.specs.Inputs.{Sound};
ghost use Rattle.fields.specs.NBit.{down_by, shift, rotate};

use super::position;
use machine::{Inputs, Outputs};

// A word shifted down by k, 1 to 32, f in the k bits above: the copies of f less those that the same shift leaves. Each shift is in
// two steps, since none takes 32 itself.
#[tactic(auto, using(crate::proofs::Laws::downward))]
fn down(k: u32, s: u32, f: u32) -> u32
    requires { (1 ≤ k) × (k ≤ 32) × (f < 2) }
    ensures { result ≡ down_by k s f }
{
    let fill = bits::spread(f);
    (s >> (k - 1)) / 2 + (fill - (fill >> (k - 1)) / 2)
}

// NB-SN-SHA, NB-SN-SHB, NB-0F-SHA, NB-0F-SHB. A position of 32 or more is negative.
#[tactic(auto, using(crate::proofs::Laws::displacing), unfolding(crate::specs::NBit::shift))]
pub fn shift(x: Inputs, s: u32, f: u32) -> Outputs
    requires { Sound x × (f < 2) }
    ensures { result ≡ shift x s f }
{
    let p = x.position();
    if p < 32 {
        return position::leave_whole(x, bits::up(p, s));
    }
    position::leave_whole(x, down(64 - p, s, f))
}

// NBROT-A, NBROT-B
#[tactic(auto, unfolding(crate::specs::NBit::rotate))]
pub fn rotate(x: Inputs, s: u32) -> Outputs
    requires { Sound x }
    ensures { result ≡ rotate x s }
{
    position::leave_whole(x, bits::rotate(position::place(x), s))
}
