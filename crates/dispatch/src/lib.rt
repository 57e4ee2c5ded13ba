// The dispatch of a run: an opcode number straight to its page's function. `chip::decode` and `chip::perform` say the same in two steps, for
// a single word; here all is one table with an entry for each of the 128 numbers, which compiles to one jump, and the run has nothing else
// between two words (docs/SPEED.md). Both are held to one definition, `perform_of`.
#![tactic(auto)]

ghost use Rattle.std.specs.Prelude.{◌≡◌};
ghost use Rattle.machine.specs.Inputs.{Sound, leaving};
ghost use Rattle.chip.specs.Glossary.{perform_of};

use machine::{Inputs, Outputs};

// A number with no page, which no checked sheet has, would leave all as it was.
fn unchanged(x: Inputs) -> Outputs
    ensures { result ≡ leaving x 0 x.status }
{
    Outputs {
        y: 0,
        q: x.q,
        status: x.status,
    }
}

// An opcode number on what stands at the chip. Each family is asked for one operation by its place there, which the compiler resolves. The
// four numbers below 128 with no page have arms of their own, so that seven bits always find an entry and the jump needs no test.
// tools/dispatch_proofs.py writes the arms from `chip::decode`, `chip::perform` and the glossary.
pub fn operate(opcode: u32, x: Inputs) -> Outputs
    requires { Sound x }
    ensures { result ≡ perform_of opcode x }
{
    match opcode {
        0x00 => chip::basic(0x00, x), // ZERO-EXTA
        0x01 => chip::basic(0x01, x), // ZERO-EXTB
        0x02 => chip::basic(0x02, x), // SIGN-EXTA
        0x03 => chip::basic(0x03, x), // SIGN-EXTB
        0x04 => chip::basic(0x04, x), // PASS-STAT
        0x05 => chip::basic(0x05, x), // PASS-Q
        0x06 => chip::basic(0x06, x), // LOADQ-A
        0x07 => chip::basic(0x07, x), // LOADQ-B
        0x08 => chip::basic(0x08, x), // NOT-A
        0x09 => chip::basic(0x09, x), // NOT-B
        0x0a => chip::basic(0x0a, x), // NEG-A
        0x0b => chip::basic(0x0b, x), // NEG-B
        0x0c => chip::basic(0x0c, x), // PRIOR-A
        0x0d => chip::basic(0x0d, x), // PRIOR-B
        0x0e => chip::basic(0x0e, x), // MERGEA-B
        0x0f => chip::basic(0x0f, x), // MERGEB-A
        0x10 => chip::basic(0x10, x), // DECR-A
        0x11 => chip::basic(0x11, x), // DECR-B
        0x12 => chip::basic(0x12, x), // INCR-A
        0x13 => chip::basic(0x13, x), // INCR-B
        0x14 => chip::basic(0x14, x), // DECR2-A
        0x15 => chip::basic(0x15, x), // DECR2-B
        0x16 => chip::basic(0x16, x), // INCR2-A
        0x17 => chip::basic(0x17, x), // INCR2-B
        0x18 => chip::basic(0x18, x), // DECR4-A
        0x19 => chip::basic(0x19, x), // DECR4-B
        0x1a => chip::basic(0x1a, x), // INCR4-A
        0x1b => chip::basic(0x1b, x), // INCR4-B
        0x1c => chip::basic(0x1c, x), // LDSTAT-A
        0x1d => chip::basic(0x1d, x), // LDSTAT-B
        0x1e => unchanged(x),
        0x1f => unchanged(x),
        0x20 => shifts::shift(0x00, x), // DN1-0F-A
        0x21 => shifts::shift(0x01, x), // DN1-0F-B
        0x22 => shifts::shift(0x02, x), // DN1-0F-AQ
        0x23 => shifts::shift(0x03, x), // DN1-0F-BQ
        0x24 => shifts::shift(0x04, x), // DN1-1F-A
        0x25 => shifts::shift(0x05, x), // DN1-1F-B
        0x26 => shifts::shift(0x06, x), // DN1-1F-AQ
        0x27 => shifts::shift(0x07, x), // DN1-1F-BQ
        0x28 => shifts::shift(0x08, x), // DN1-LF-A
        0x29 => shifts::shift(0x09, x), // DN1-LF-B
        0x2a => shifts::shift(0x0a, x), // DN1-LF-AQ
        0x2b => shifts::shift(0x0b, x), // DN1-LF-BQ
        0x2c => shifts::shift(0x0c, x), // DN1-AR-A
        0x2d => shifts::shift(0x0d, x), // DN1-AR-B
        0x2e => shifts::shift(0x0e, x), // DN1-AR-AQ
        0x2f => shifts::shift(0x0f, x), // DN1-AR-BQ
        0x30 => shifts::shift(0x10, x), // UP1-0F-A
        0x31 => shifts::shift(0x11, x), // UP1-0F-B
        0x32 => shifts::shift(0x12, x), // UP1-0F-AQ
        0x33 => shifts::shift(0x13, x), // UP1-0F-BQ
        0x34 => shifts::shift(0x14, x), // UP1-1F-A
        0x35 => shifts::shift(0x15, x), // UP1-1F-B
        0x36 => shifts::shift(0x16, x), // UP1-1F-AQ
        0x37 => shifts::shift(0x17, x), // UP1-1F-BQ
        0x38 => shifts::shift(0x18, x), // UP1-LF-A
        0x39 => shifts::shift(0x19, x), // UP1-LF-B
        0x3a => shifts::shift(0x1a, x), // UP1-LF-AQ
        0x3b => shifts::shift(0x1b, x), // UP1-LF-BQ
        0x3c => chip::basic(0x1e, x), // ZERO
        0x3d => chip::basic(0x1f, x), // SIGN
        0x3e => chip::basic(0x20, x), // OR
        0x3f => chip::basic(0x21, x), // XOR
        0x40 => chip::basic(0x22, x), // AND
        0x41 => chip::basic(0x23, x), // XNOR
        0x42 => chip::basic(0x24, x), // ADD
        0x43 => chip::basic(0x25, x), // ADDC
        0x44 => chip::basic(0x26, x), // SUB
        0x45 => chip::basic(0x27, x), // SUBC
        0x46 => chip::basic(0x28, x), // SUBR
        0x47 => chip::basic(0x29, x), // SUBRC
        0x48 => arithmetic::decimal(0x00, x), // SUM-CORR-A
        0x49 => arithmetic::decimal(0x01, x), // SUM-CORR-B
        0x4a => arithmetic::decimal(0x02, x), // DIFF-CORR-A
        0x4b => arithmetic::decimal(0x03, x), // DIFF-CORR-B
        0x4c => unchanged(x),
        0x4d => unchanged(x),
        0x4e => divide::divide(0x00, x), // SDIVFIRST
        0x4f => divide::divide(0x01, x), // UDIVFIRST
        0x50 => divide::divide(0x02, x), // SDIVSTEP
        0x51 => divide::divide(0x03, x), // SDIVLAST1
        0x52 => divide::divide(0x04, x), // MPDIVSTEP1
        0x53 => divide::divide(0x05, x), // MPSDIVSTEP3
        0x54 => divide::divide(0x06, x), // UDIVSTEP
        0x55 => divide::divide(0x07, x), // UDIVLAST
        0x56 => divide::divide(0x08, x), // MPDIVSTEP2
        0x57 => divide::divide(0x09, x), // MPUDIVSTP3
        0x58 => divide::divide(0x0a, x), // REMCORR
        0x59 => divide::divide(0x0b, x), // QUOCORR
        0x5a => divide::divide(0x0c, x), // SDIVLAST2
        0x5b => multiply::multiply(0x00, x), // UMULFIRST
        0x5c => multiply::multiply(0x01, x), // UMULSTEP
        0x5d => multiply::multiply(0x02, x), // UMULLAST
        0x5e => multiply::multiply(0x03, x), // SMULSTEP
        0x5f => multiply::multiply(0x04, x), // SMULFIRST
        0x60 => fields::field(0x00, x), // NB-SN-SHA
        0x61 => fields::field(0x01, x), // NB-SN-SHB
        0x62 => fields::field(0x02, x), // NB-0F-SHA
        0x63 => fields::field(0x03, x), // NB-0F-SHB
        0x64 => fields::field(0x04, x), // NBROT-A
        0x65 => fields::field(0x05, x), // NBROT-B
        0x66 => fields::field(0x06, x), // EXTBIT-A
        0x67 => fields::field(0x07, x), // EXTBIT-B
        0x68 => fields::field(0x08, x), // SETBIT-A
        0x69 => fields::field(0x09, x), // SETBIT-B
        0x6a => fields::field(0x0a, x), // RSTBIT-A
        0x6b => fields::field(0x0b, x), // RSTBIT-B
        0x6c => fields::field(0x0c, x), // SETBIT-STAT
        0x6d => fields::field(0x0d, x), // RSTBIT-STAT
        0x6e => fields::field(0x0e, x), // NOTF-AL-B
        0x6f => fields::field(0x0f, x), // PASSF-AL-B
        0x70 => fields::field(0x10, x), // NOTF-A
        0x71 => fields::field(0x11, x), // NOTF-AL-A
        0x72 => fields::field(0x12, x), // PASSF-A
        0x73 => fields::field(0x13, x), // PASSF-AL-A
        0x74 => fields::field(0x14, x), // ORF-A
        0x75 => fields::field(0x15, x), // ORF-AL-A
        0x76 => fields::field(0x16, x), // XORF-A
        0x77 => fields::field(0x17, x), // XORF-AL-A
        0x78 => fields::field(0x18, x), // ANDF-A
        0x79 => fields::field(0x19, x), // ANDF-AL-A
        0x7a => fields::field(0x1a, x), // EXTF-A
        0x7b => fields::field(0x1b, x), // EXTF-B
        0x7c => fields::field(0x1c, x), // EXTF-AB
        0x7d => fields::field(0x1d, x), // EXTF-BA
        0x7e => fields::field(0x1e, x), // EXTBIT-STAT
        0x7f => fields::field(0x1f, x), // PASS-MASK
        _ => unchanged(x),
    }
}
