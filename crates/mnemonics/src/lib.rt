// The mnemonics of the operations, in one table (docs/LISTING.md).
#![tactic(auto)]

ghost use Rattle.std.specs.Prelude.{◌≡◌, ◌<◌};
ghost use Rattle.mnemonics.specs.Mnemonics.{mnemonic_of, in_column, columns};

// The longest has eleven bytes.
pub const COLUMN: usize = 12;

// The mnemonics in the glossary's order, each in its column; blank where there is no page.
static MNEMONICS: [[u8; COLUMN]; 128] = [
    // 00
    *b"ZERO-EXTA   ",
    *b"ZERO-EXTB   ",
    *b"SIGN-EXTA   ",
    *b"SIGN-EXTB   ",
    *b"PASS-STAT   ",
    *b"PASS-Q      ",
    *b"LOADQ-A     ",
    *b"LOADQ-B     ",
    *b"NOT-A       ",
    *b"NOT-B       ",
    *b"NEG-A       ",
    *b"NEG-B       ",
    *b"PRIOR-A     ",
    *b"PRIOR-B     ",
    *b"MERGEA-B    ",
    *b"MERGEB-A    ",
    // 10
    *b"DECR-A      ",
    *b"DECR-B      ",
    *b"INCR-A      ",
    *b"INCR-B      ",
    *b"DECR2-A     ",
    *b"DECR2-B     ",
    *b"INCR2-A     ",
    *b"INCR2-B     ",
    *b"DECR4-A     ",
    *b"DECR4-B     ",
    *b"INCR4-A     ",
    *b"INCR4-B     ",
    *b"LDSTAT-A    ",
    *b"LDSTAT-B    ",
    *b"            ",
    *b"            ",
    // 20
    *b"DN1-0F-A    ",
    *b"DN1-0F-B    ",
    *b"DN1-0F-AQ   ",
    *b"DN1-0F-BQ   ",
    *b"DN1-1F-A    ",
    *b"DN1-1F-B    ",
    *b"DN1-1F-AQ   ",
    *b"DN1-1F-BQ   ",
    *b"DN1-LF-A    ",
    *b"DN1-LF-B    ",
    *b"DN1-LF-AQ   ",
    *b"DN1-LF-BQ   ",
    *b"DN1-AR-A    ",
    *b"DN1-AR-B    ",
    *b"DN1-AR-AQ   ",
    *b"DN1-AR-BQ   ",
    // 30
    *b"UP1-0F-A    ",
    *b"UP1-0F-B    ",
    *b"UP1-0F-AQ   ",
    *b"UP1-0F-BQ   ",
    *b"UP1-1F-A    ",
    *b"UP1-1F-B    ",
    *b"UP1-1F-AQ   ",
    *b"UP1-1F-BQ   ",
    *b"UP1-LF-A    ",
    *b"UP1-LF-B    ",
    *b"UP1-LF-AQ   ",
    *b"UP1-LF-BQ   ",
    *b"ZERO        ",
    *b"SIGN        ",
    *b"OR          ",
    *b"XOR         ",
    // 40
    *b"AND         ",
    *b"XNOR        ",
    *b"ADD         ",
    *b"ADDC        ",
    *b"SUB         ",
    *b"SUBC        ",
    *b"SUBR        ",
    *b"SUBRC       ",
    *b"SUM-CORR-A  ",
    *b"SUM-CORR-B  ",
    *b"DIFF-CORR-A ",
    *b"DIFF-CORR-B ",
    *b"            ",
    *b"            ",
    *b"SDIVFIRST   ",
    *b"UDIVFIRST   ",
    // 50
    *b"SDIVSTEP    ",
    *b"SDIVLAST1   ",
    *b"MPDIVSTEP1  ",
    *b"MPSDIVSTEP3 ",
    *b"UDIVSTEP    ",
    *b"UDIVLAST    ",
    *b"MPDIVSTEP2  ",
    *b"MPUDIVSTP3  ",
    *b"REMCORR     ",
    *b"QUOCORR     ",
    *b"SDIVLAST2   ",
    *b"UMULFIRST   ",
    *b"UMULSTEP    ",
    *b"UMULLAST    ",
    *b"SMULSTEP    ",
    *b"SMULFIRST   ",
    // 60
    *b"NB-SN-SHA   ",
    *b"NB-SN-SHB   ",
    *b"NB-0F-SHA   ",
    *b"NB-0F-SHB   ",
    *b"NBROT-A     ",
    *b"NBROT-B     ",
    *b"EXTBIT-A    ",
    *b"EXTBIT-B    ",
    *b"SETBIT-A    ",
    *b"SETBIT-B    ",
    *b"RSTBIT-A    ",
    *b"RSTBIT-B    ",
    *b"SETBIT-STAT ",
    *b"RSTBIT-STAT ",
    *b"NOTF-AL-B   ",
    *b"PASSF-AL-B  ",
    // 70
    *b"NOTF-A      ",
    *b"NOTF-AL-A   ",
    *b"PASSF-A     ",
    *b"PASSF-AL-A  ",
    *b"ORF-A       ",
    *b"ORF-AL-A    ",
    *b"XORF-A      ",
    *b"XORF-AL-A   ",
    *b"ANDF-A      ",
    *b"ANDF-AL-A   ",
    *b"EXTF-A      ",
    *b"EXTF-B      ",
    *b"EXTF-AB     ",
    *b"EXTF-BA     ",
    *b"EXTBIT-STAT ",
    *b"PASS-MASK   ",
];

// All of them, where they stand: nothing is copied.
pub fn table() -> &'static [[u8; COLUMN]; 128]
    ensures { result.now ≡ columns }
{
    &MNEMONICS
}

// The mnemonic of an opcode number, in its column.
pub fn column(opcode: usize) -> [u8; COLUMN]
    requires { opcode < 128 }
    ensures { result ≡ in_column (mnemonic_of opcode) }
{
    table()[opcode]
}
