// The variable-length instructions, the quarter from 60 on: N-bit shifts (table 13), bit manipulation (tables 14-1 and 14-2), field
// logical instructions (table 15) and the mask (table 16). Public for the chip's dispatch.
// Kept: SETBIT and RSTBIT, aligned and non-aligned fields, EXTBIT of data and of the status: a page or a line of a table each, of one line.
#![tactic(auto)]

mod bit;
mod logical;
mod nbit;
mod position;

ghost use Rattle.std.specs.Prelude.{◌≡◌, get_or};
ghost use Rattle.machine.specs.Inputs.{Sound};
ghost use Rattle.fields.specs.Field.{fields, PASS-MASK};

use machine::{Inputs, Outputs};

// Opcode 60 + k, in hexadecimal. The arms only call and return.
pub fn field(k: u32, x: Inputs) -> Outputs
    requires { Sound x }
    ensures { result ≡ get_or fields k PASS-MASK x }
{
    match k {
        0x00 => nbit::shift(x, x.a, bits::sign(x.a, 32)), // 60 NB-SN-SHA
        0x01 => nbit::shift(x, x.b, bits::sign(x.b, 32)), // 61 NB-SN-SHB
        0x02 => nbit::shift(x, x.a, 0), // 62 NB-0F-SHA
        0x03 => nbit::shift(x, x.b, 0), // 63 NB-0F-SHB
        0x04 => nbit::rotate(x, x.a), // 64 NBROT-A
        0x05 => nbit::rotate(x, x.b), // 65 NBROT-B
        0x06 => bit::extract(x, x.a), // 66 EXTBIT-A
        0x07 => bit::extract(x, x.b), // 67 EXTBIT-B
        0x08 => bit::set(x, x.a), // 68 SETBIT-A
        0x09 => bit::set(x, x.b), // 69 SETBIT-B
        0x0a => bit::reset(x, x.a), // 6A RSTBIT-A
        0x0b => bit::reset(x, x.b), // 6B RSTBIT-B
        0x0c => bit::set_status(x), // 6C SETBIT-STAT
        0x0d => bit::reset_status(x), // 6D RSTBIT-STAT
        0x0e => logical::aligned(x, !x.b), // 6E NOTF-AL-B
        0x0f => logical::aligned(x, x.b), // 6F PASSF-AL-B
        0x10 => logical::unaligned(x, !logical::moved(x, x.a)), // 70 NOTF-A
        0x11 => logical::aligned(x, !x.a), // 71 NOTF-AL-A
        0x12 => logical::unaligned(x, logical::moved(x, x.a)), // 72 PASSF-A
        0x13 => logical::aligned(x, x.a), // 73 PASSF-AL-A
        0x14 => logical::unaligned(x, logical::moved(x, x.a) | x.b), // 74 ORF-A
        0x15 => logical::aligned(x, x.a | x.b), // 75 ORF-AL-A
        0x16 => logical::unaligned(x, logical::moved(x, x.a) ^ x.b), // 76 XORF-A
        0x17 => logical::aligned(x, x.a ^ x.b), // 77 XORF-AL-A
        0x18 => logical::unaligned(x, logical::moved(x, x.a) & x.b), // 78 ANDF-A
        0x19 => logical::aligned(x, x.a & x.b), // 79 ANDF-AL-A
        0x1a => logical::extract(x, x.a), // 7A EXTF-A
        0x1b => logical::extract(x, x.b), // 7B EXTF-B
        0x1c => logical::extract_pair(x, x.a, x.b), // 7C EXTF-AB
        0x1d => logical::extract_pair(x, x.b, x.a), // 7D EXTF-BA
        0x1e => bit::extract_status(x), // 7E EXTBIT-STAT
        _ => logical::pass_mask(x), // 7F PASS-MASK
    }
}
