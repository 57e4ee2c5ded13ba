// A word of a sheet: 48 bits in six bytes, most significant first, packed and unpacked.
#![tactic(auto)]

ghost use Rattle.std.specs.Prelude.{◌≡◌, ◌∷◌, ◌++◌, ◌+◌, ◌*◌, ◌%◌, ◌^◌, ◌<◌, ◌≤◌, length, drop, leb};
ghost use Rattle.bits.specs.Bits.{choose};
ghost use Rattle.reasons.specs.Reasons.{first_of, check_numbers};
ghost use Rattle.packing.specs.Packing.{number6, fields_of, packed_number, bytes6, some, register_fields, too_large, left_idle, InRange, pack_rows, ended, pack_of, unpack_rows, unpack_of, word_or_blank};
ghost use Rattle.packing.specs.Registers.{only, sources_of, destination_of, names_of, Narrow};

use chip::Word;
use reasons::{Reason, Refusal, refuse_if};

// The six bytes at the start of `s`, as one number. Public for the crates above, which see to the length.
// Kept: a sum, and not `u64::from_be_bytes` with two zeros before the six, by which a run took an eighth longer for each word.
pub fn word_number(s: &[u8]) -> u64
    requires { 6 ≤ length s.now }
    ensures { result ≡ number6 s.now }
{
    bits::four_bytes_at(s, 0) as u64 * 0x1_0000 + s[4] as u64 * 0x100 + s[5] as u64
}

// The fields of a word's number.
#[tactic(auto, unfolding(crate::specs::Packing::fields_of))]
pub fn fields(v: u64) -> Word
    ensures { result ≡ fields_of v }
{
    Word {
        opcode: (v >> 41) as u32,
        code: ((v >> 39) % 4) as u32,
        position: ((v >> 33) % 64) as u32,
        width: ((v >> 28) % 32) as u32,
        a: ((v >> 22) % 64) as u32,
        b: ((v >> 16) % 64) as u32,
        y: ((v >> 10) % 64) as u32,
        write: ((v >> 9) % 2) as u32,
        select: ((v >> 8) % 2) as u32,
        carry: ((v >> 7) % 2) as u32,
        link: ((v >> 6) % 2) as u32,
        borrow: ((v >> 5) % 2) as u32,
    }
}

// Whether a register field holds n or more. `|` tests all, without a branch for each.
pub fn names_from(n: u32, w: Word) -> bool
    ensures { result ≡ some (leb n) (register_fields w) }
{
    (n <= w.a) | (n <= w.b) | (n <= w.y)
}

// Whether a field is larger than its bits hold. Public for the reader of listings.
#[tactic(auto, unfolding(crate::specs::Packing::too_large))]
pub fn too_large(w: Word) -> bool
    ensures { result ≡ too_large w }
{
    chip::out_of_range(
        w.code, w.position, w.width, w.select, w.carry, w.link, w.borrow,
    ) | names_from(64, w)
        | (1 < w.write)
}

// The bits that are left idle: Y's in a word that does not write, else none. The check of a sheet takes them together with the spare ones.
pub fn idle_y(w: Word) -> u32
    ensures { result ≡ choose w.write w.y 0 }
{
    if w.write == 0 {
        return w.y;
    }
    0
}

// Whether Y's field is left idle: not 0 in a word that does not write. Public for the crates above.
#[tactic(auto, using(crate::proofs::Numbers::idle_differs), unfolding(crate::specs::Packing::left_idle))]
pub fn left_idle(w: Word) -> bool
    ensures { result ≡ left_idle w }
{
    idle_y(w) != 0
}

// The number of a word's fields.
fn packed_number(w: Word) -> u64
    requires { InRange w }
    ensures { result ≡ packed_number w }
{
    w.opcode as u64 * 0x200_0000_0000
        + w.code as u64 * 0x80_0000_0000
        + w.position as u64 * 0x2_0000_0000
        + w.width as u64 * 0x1000_0000
        + w.a as u64 * 0x40_0000
        + w.b as u64 * 0x1_0000
        + w.y as u64 * 0x400
        + w.write as u64 * 0x200
        + w.select as u64 * 0x100
        + w.carry as u64 * 0x80
        + w.link as u64 * 0x40
        + w.borrow as u64 * 0x20
}

// The six bytes of a number.
fn six(v: u64) -> [u8; 6]
    ensures { result ≡ bytes6 v }
{
    let all = v.to_be_bytes();
    [all[2], all[3], all[4], all[5], all[6], all[7]]
}

// The six bytes of a word. Public for the reader of listings, which has seen to the fields.
pub fn bytes(w: Word) -> [u8; 6]
    requires { InRange w }
    ensures { result ≡ bytes6 (packed_number w) }
{
    six(packed_number(w))
}

// A word's number into the first six bytes of `d`.
fn put_number(v: u64, d: &mut [u8])
    requires { 6 ≤ length d.old }
    ensures { d.new ≡ bytes6 v ++ drop 6 d.old }
{
    d[..6].copy_from_slice(&six(v));
}

// ---- the registers that a word names, as a set

// Register r alone.
// Kept: a set of registers is a number, as in the definitions (docs/DECISIONS.md), and no type of its own: these are public functions.
pub fn only(r: u32) -> u64
    requires { r < 64 }
    ensures { result ≡ only r }
{
    1 << r
}

// As sources: A and B.
#[tactic(auto, unfolding(crate::specs::Registers::sources_of))]
pub fn sources(w: Word) -> u64
    requires { Narrow w }
    ensures { result ≡ sources_of w }
{
    only(w.a) | only(w.b)
}

// As destination: Y, and none where the word does not write. The bit that says so is moved to Y's place, for which no branch is needed.
#[tactic(auto, using(crate::proofs::Registers::moved), unfolding(crate::specs::Registers::destination_of))]
pub fn destination(w: Word) -> u64
    requires { Narrow w }
    ensures { result ≡ destination_of w }
{
    (w.write as u64) << w.y
}

// All that it names.
#[tactic(auto, unfolding(crate::specs::Registers::names_of))]
pub fn names(w: Word) -> u64
    requires { Narrow w }
    ensures { result ≡ names_of w }
{
    sources(w) | destination(w)
}

// ---- packing and unpacking

// Packing: the word into the first six bytes of `d`. Where it is refused `d` stays.
#[tactic(auto, using(crate::proofs::Numbers::in_range), unfolding(crate::specs::Packing::pack_of))]
pub fn pack(w: Word, d: &mut [u8]) -> Result<(), Refusal>
    ensures d_after { ended result d.new ≡ pack_of w d.old }
    ensures numbers { check_numbers result ≡ check_numbers (first_of (pack_rows w (length d.old))) }
{
    refuse_if(chip::lacks_page(w.opcode), Reason::Opcode, 0)?;
    refuse_if(too_large(w), Reason::Inputs, 0)?;
    refuse_if(left_idle(w), Reason::Idle, 0)?;
    refuse_if(d.len() < 6, Reason::Room, 0)?;
    put_number(packed_number(w), d);
    Ok(())
}

// Unpacking: the word in the first six bytes of `s`.
#[tactic(auto, unfolding(crate::specs::Packing::unpack_of))]
pub fn unpack(s: &[u8]) -> Result<Word, Refusal>
    ensures value { result ≡ unpack_of s.now }
    ensures numbers { check_numbers result ≡ check_numbers (first_of (unpack_rows s.now)) }
{
    refuse_if(s.len() < 6, Reason::Room, 0)?;
    let number = word_number(s);
    refuse_if(number % 32 != 0, Reason::Spare, 0)?;
    let word = fields(number);
    refuse_if(left_idle(word), Reason::Idle, 0)?;
    refuse_if(chip::lacks_page(word.opcode), Reason::Opcode, 0)?;
    Ok(word)
}

// The word that unpacking answers, for a caller that takes one in any case: all fields 0 where it is refused.
#[tactic(auto, unfolding(crate::specs::Packing::fields_of))]
pub fn word_or_blank(unpacked: Result<Word, Refusal>) -> Word
    ensures { result ≡ word_or_blank unpacked }
{
    unpacked.unwrap_or(fields(0))
}
