// Field logical instructions (table 15, figure 6) and the mask (table 16). Masks are shifted into place; none is stored.
ghost use Rattle.std.specs.Prelude.{◌≡◌, ◌<◌};
ghost use Rattle.machine.specs.Inputs.{Sound};
ghost use Rattle.fields.specs.Field.{aligned_field, moved_field, moved, in_field, beside, rotated_pair, extract_pair, PASS-MASK};

use super::position;
use machine::{Inputs, Outputs};

// Ones in the aligned field, which starts at the low five position bits.
fn aligned_field(x: Inputs) -> u32
    requires { Sound x }
    ensures { result ≡ aligned_field x }
{
    bits::field_mask(position::place(x), x.width())
}

// Ones in the non-aligned field, which starts at the position, or at bit 0 where that is negative, 32 or more.
#[tactic(auto, using(crate::proofs::Laws::displacing))]
fn moved_field(x: Inputs) -> u32
    requires { Sound x }
    ensures { result ≡ moved_field x }
{
    let p = x.position();
    if p < 32 {
        return bits::field_mask(p, x.width());
    }
    bits::field_mask(0, x.width())
}

// The source of a non-aligned field: shifted up to the position, or, where that is negative, rotated down (note 3 of the pages),
// which by 64 - p is up by p - 32.
#[tactic(auto, using(crate::proofs::Laws::displacing))]
pub fn moved(x: Inputs, s: u32) -> u32
    requires { Sound x }
    ensures { result ≡ moved x s }
{
    let p = x.position();
    if p < 32 {
        return bits::up(p, s);
    }
    bits::rotate(p - 32, s)
}

// r in the field, u in the remaining bits of Y; Z is of the field alone.
#[tactic(auto, unfolding(crate::specs::Field::in_field))]
fn in_field(x: Inputs, field: u32, r: u32, u: u32) -> Outputs
    ensures { result ≡ in_field x field r u }
{
    let y = bits::masked(field, r, u);
    position::leave(x, y, bits::is_zero(y & field, 32))
}

// NOTF-AL, PASSF-AL, ORF-AL, XORF-AL, ANDF-AL with their results r
pub fn aligned(x: Inputs, r: u32) -> Outputs
    requires { Sound x }
    ensures { result ≡ in_field x (aligned_field x) r x.b }
{
    in_field(x, aligned_field(x), r, x.b)
}

// NOTF-A, PASSF-A, ORF-A, XORF-A, ANDF-A with their results r
pub fn unaligned(x: Inputs, r: u32) -> Outputs
    requires { Sound x }
    ensures { result ≡ in_field x (moved_field x) r x.b }
{
    in_field(x, moved_field(x), r, x.b)
}

// EXTF-A, EXTF-B: zeros in the remaining bits of Y.
pub fn extract(x: Inputs, s: u32) -> Outputs
    requires { Sound x }
    ensures { result ≡ in_field x (moved_field x) (moved x s) 0 }
{
    in_field(x, moved_field(x), moved(x, s), 0)
}

// Two words side by side, rotated up by k.
#[tactic(auto, using(crate::proofs::Laws::pair_law))]
fn rotate_pair(k: u32, high: u32, low: u32) -> u64
    requires { k < 64 }
    ensures { result ≡ rotated_pair k (beside high low) }
{
    let v = u64::from(high) * 0x1_0000_0000 + u64::from(low);
    v.rotate_left(k)
}

// EXTF-AB, EXTF-BA. Rotated down by 64 - p is rotated up by p, so that one rotate serves both signs of the position.
#[tactic(auto, using(crate::proofs::Laws::pairs), unfolding(crate::specs::Field::extract_pair))]
pub fn extract_pair(x: Inputs, high: u32, low: u32) -> Outputs
    requires { Sound x }
    ensures { result ≡ extract_pair x high low }
{
    let rotated = rotate_pair(x.position(), high, low);
    position::leave_whole(x, bits::cut(bits::low(rotated), x.width()))
}

// PASS-MASK: the sixth position bit inverts all 32 bits.
pub fn pass_mask(x: Inputs) -> Outputs
    requires { Sound x }
    ensures { result ≡ PASS-MASK x }
{
    let field = aligned_field(x);
    Outputs {
        y: bits::choose(x.position() / 32, field, !field),
        q: x.q,
        status: x.status,
    }
}
