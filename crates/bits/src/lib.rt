// Leaves: what the pages do with the bits of one data word. Each hides its bit trick behind a promise in plain arithmetic, so that
// nothing above uses a mask on data. They are public for the crates above; a `requires` keeps n, a count of selected bits, in range.
// Kept: what is in range (a count of bits, a place, a flag) and the operands of a sum stand in contracts, one by one, and not in types: these are
// public functions, named in docs/FUNCTIONS.md, and a type would ask more of who calls them.
#![tactic(auto)]

ghost use Rattle.std.specs.Prelude.{◌≡◌, ◌+◌, ◌-◌, ◌*◌, ◌/◌, ◌%◌, ◌^◌, ◌<◌, ◌≤◌, length, count_ones};
ghost use Rattle.bits.specs.Bits.{bytes4, bytes4_at, selected, bit_of, sign_of, zero_of, merged, not_of, copies, choose, carry_of, overflow_of, up_by, rotated_up, field_mask, masked_of, put_bit, priority_of, parity_of};

// How many bits a byte code selects (tables 3 and 5): eight less than 32 for each byte missing, so that no test is needed for code 0.
pub fn selected_bits(code: u32) -> u32
    requires { code < 4 }
    ensures { (result ≡ selected code) × (8 ≤ result) × (result ≤ 32) }
{
    32 - (4 - code) % 4 * 8
}

// The low n bits set, 2 to the n less 1: all ones, shifted down by what n lacks of 32, so that 32 is no case of its own.
#[tactic(auto, using(crate::proofs::Laws::ones_shr))]
fn mask(n: u32) -> u32
    requires { (1 ≤ n) × (n ≤ 32) }
    ensures { result ≡ 2 ^ n - 1 }
{
    0xffff_ffff >> (32 - n)
}

// The low n bits of x.
#[tactic(auto, using(crate::proofs::Laws::masks))]
pub fn cut(x: u32, n: u32) -> u32
    requires { (1 ≤ n) × (n ≤ 32) }
    ensures { result ≡ x % 2 ^ n }
{
    x & mask(n)
}

// Selected bits of s, unselected bits of u.
#[tactic(auto, using(crate::proofs::Laws::merge_law))]
pub fn merge(s: u32, u: u32, n: u32) -> u32
    requires { (1 ≤ n) × (n ≤ 32) }
    ensures { result ≡ merged n s u }
{
    let m = mask(n);
    (s & m) | (u & !m)
}

pub fn bit(i: u32, x: u32) -> u32
    requires { i < 32 }
    ensures { result ≡ bit_of i x }
{
    (x >> i) % 2
}

// The selected bits moved to the top of the word, where one shift or test serves every width.
#[tactic(auto, using(crate::proofs::Laws::shl_law))]
fn top(x: u32, n: u32) -> u32
    requires { (1 ≤ n) × (n ≤ 32) }
    ensures { result ≡ x % 2 ^ n * 2 ^ (32 - n) }
{
    x << (32 - n)
}

// The top selected bit.
#[tactic(auto, using(crate::proofs::Laws::top_bits))]
pub fn sign(x: u32, n: u32) -> u32
    requires { (1 ≤ n) × (n ≤ 32) }
    ensures { result ≡ sign_of n x }
{
    top(x, n) >> 31
}

// The top selected bit, in its place.
#[tactic(auto, using(crate::proofs::Laws::one_bit))]
pub fn sign_bit(x: u32, n: u32) -> u32
    requires { (1 ≤ n) × (n ≤ 32) }
    ensures { result ≡ sign_of n x * 2 ^ (n - 1) }
{
    x & (1 << (n - 1))
}

#[tactic(auto, using(crate::proofs::Laws::top_bits), unfolding(crate::specs::Bits::zero_of))]
pub fn is_zero(x: u32, n: u32) -> u32
    requires { (1 ≤ n) × (n ≤ 32) }
    ensures { result ≡ zero_of n x }
{
    (top(x, n) == 0) as u32
}

// The first at 0, the second at any other number.
pub fn choose(f: u32, a: u32, b: u32) -> u32
    ensures { result ≡ choose f a b }
{
    if f == 0 { a } else { b }
}

// 32 copies of a flag.
pub fn spread(f: u32) -> u32
    requires { f < 2 }
    ensures { result ≡ copies f }
{
    f * 0xffff_ffff
}

// The wrapping sum of the data word.
pub fn add(a: u32, b: u32, c: u32) -> u32
    ensures { result ≡ (a + b + c) % 2 ^ 32 }
{
    a.wrapping_add(b).wrapping_add(c)
}

// The wrapping difference: a - b where c is 1, and one less where c is 0.
pub fn subtract(a: u32, b: u32, c: u32) -> u32
    requires { c < 2 }
    ensures { result ≡ (a + not_of b + c) % 2 ^ 32 }
{
    a.wrapping_sub(b).wrapping_sub(1 - c)
}

// The sum with its carry out of the data word, from which carry and overflow of any width can be read.
pub fn sum(a: u32, b: u32, c: u32) -> u64
    ensures { result ≡ a + b + c }
{
    a as u64 + b as u64 + c as u64
}

// The low 32 bits.
pub fn low(s: u64) -> u32
    ensures { result ≡ s % 2 ^ 32 }
{
    (s % 0x1_0000_0000) as u32
}

// The carry out of the top selected bit of a + b + c, from that sum s: it differs from its operands where a carry came in.
#[tactic(auto, using(crate::proofs::Adder::reads))]
pub fn carry(a: u32, b: u32, c: u32, s: u64, n: u32) -> u32
    requires { (1 ≤ n) × (n ≤ 32) × (c < 2) × (s ≡ a + b + c) }
    ensures { result ≡ carry_of n a b c }
{
    let carries = s ^ (a as u64) ^ (b as u64);
    (((carries << (32 - n)) >> 32) % 2) as u32
}

// Its overflow: the carry into the top selected bit is not the carry out of it.
#[tactic(auto, using(crate::proofs::Adder::reads))]
pub fn overflow(a: u32, b: u32, c: u32, s: u64, n: u32) -> u32
    requires { (1 ≤ n) × (n ≤ 32) × (c < 2) × (s ≡ a + b + c) }
    ensures { result ≡ overflow_of n a b c }
{
    let into = s ^ (a as u64) ^ (b as u64);
    sign(low(into ^ (into >> 1)), n)
}

// A word shifted up by k, zeros below.
pub fn up(k: u32, x: u32) -> u32
    requires { k < 32 }
    ensures { result ≡ up_by k x }
{
    x << k
}

// A word rotated up by k.
#[tactic(auto, using(crate::proofs::Laws::rotate_law))]
pub fn rotate(k: u32, x: u32) -> u32
    requires { k < 32 }
    ensures { result ≡ rotated_up k x }
{
    x.rotate_left(k)
}

// Ones in the w bits from bit p up.
#[tactic(auto, unfolding(crate::specs::Bits::field_mask))]
pub fn field_mask(p: u32, w: u32) -> u32
    requires { (p < 32) × (1 ≤ w) × (w ≤ 32) }
    ensures { result ≡ field_mask p w }
{
    mask(w) << p
}

// s where the mask has ones, u elsewhere.
// Kept: `merge` stays beside it, by the same expression under a definition of its own, of a number of bits.
pub fn masked(m: u32, s: u32, u: u32) -> u32
    ensures { result ≡ masked_of m s u }
{
    (s & m) | (u & !m)
}

// Kept: set and clear apart. SETBIT and RSTBIT, which call them, know which; with the bit as an argument each would be a test longer.
#[tactic(auto, using(crate::proofs::Laws::one_bit))]
pub fn set_bit(i: u32, x: u32) -> u32
    requires { i < 32 }
    ensures { result ≡ put_bit i 1 x }
{
    x | (1 << i)
}

#[tactic(auto, using(crate::proofs::Laws::one_bit))]
pub fn clear_bit(i: u32, x: u32) -> u32
    requires { i < 32 }
    ensures { result ≡ put_bit i 0 x }
{
    x & !(1 << i)
}

// The priority code: leading zeros of the selected bytes.
#[tactic(auto, using(crate::proofs::Laws::leading_zeros), unfolding(crate::specs::Bits::priority_of))]
pub fn priority(x: u32, n: u32) -> u32
    requires { (1 ≤ n) × (n ≤ 32) }
    ensures { result ≡ priority_of n x }
{
    let s = cut(x, n);
    if s == 0 {
        return 0;
    }
    s.leading_zeros() - (32 - n)
}

// The bit that makes the count of ones in it and the low byte of x even.
fn byte_parity(x: u32) -> u32
    ensures { (result ≡ count_ones (x % 256) % 2) × (result < 2) }
{
    (x % 256).count_ones() % 2
}

// Even parity, highest byte first, by doubling: a sum of four products the compiler works out two at a time, with masks that it stores.
#[tactic(auto, unfolding(crate::specs::Bits::parity_of))]
pub fn parity(x: u32) -> u32
    ensures { result ≡ parity_of x }
{
    let upper = byte_parity(x >> 24) * 2 + byte_parity(x >> 16);
    (upper * 2 + byte_parity(x >> 8)) * 2 + byte_parity(x)
}

// Four bytes as one number, the first highest, as sheets and registers are written: one load and one turn (docs/SPEED.md).
pub fn four_bytes(b0: u8, b1: u8, b2: u8, b3: u8) -> u32
    ensures { result ≡ bytes4 b0 b1 b2 b3 }
{
    u32::from_be_bytes([b0, b1, b2, b3])
}

// The four bytes at a place, as one number.
pub fn four_bytes_at(s: &[u8], at: usize) -> u32
    requires { at + 4 ≤ length s.now }
    ensures { result ≡ bytes4_at s.now at }
{
    four_bytes(s[at], s[at + 1], s[at + 2], s[at + 3])
}
