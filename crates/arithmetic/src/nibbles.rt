// Leaves: the nibble bits, STATUS <31:24> (appendix A), each at its nibble's place. Every sum and difference has them, so all eight are worked
// out at once, from the exact sum s that gives C and V too: it differs from its operands where a binary carry came in.
ghost use Rattle.std.specs.Prelude.{◌≡◌, ◌+◌, ◌-◌, ◌<◌};
ghost use Rattle.bits.specs.Bits.{not_of};
ghost use Rattle.arithmetic.specs.Nibbles.{nibble_carries, nibble_borrows};

// Bit 0 of each nibble, bit 3 of each, and what takes a nibble that reaches ten past 15.
const ONES: u64 = 0x1111_1111;

const EIGHTS: u64 = 0x8888_8888;

const SIXES: u64 = 0x6666_6666;

// The nibble carries of a + b + c: a nibble carries where the binary sum does, and where its six more do. A nibble that has carried is left
// without its 8, so that its sixes carry no second time.
#[tactic(auto, using(crate::proofs::Chains::reading))]
pub fn nibble_carries(a: u32, b: u32, c: u32, s: u64) -> u32
    requires { (c < 2) × (s ≡ a + b + c) }
    ensures { result ≡ nibble_carries 8 a b c }
{
    let binary = s ^ (a as u64) ^ (b as u64);
    let rest = s & !((binary >> 1) & EIGHTS);
    bits::low(((((rest + SIXES) ^ rest) | binary) >> 4) & ONES)
}

// The nibble borrows of a - b, one less where c is 0: the complements of the binary carries of a, the complement of b, and c.
#[tactic(auto, using(crate::proofs::Chains::reading))]
pub fn nibble_borrows(a: u32, b: u32, c: u32, s: u64) -> u32
    requires { (c < 2) × (s ≡ a + not_of b + c) }
    ensures { result ≡ nibble_borrows 8 a b (1 - c) }
{
    let binary = s ^ (a as u64) ^ (!b as u64);
    (ONES - ((binary >> 4) & ONES)) as u32
}
