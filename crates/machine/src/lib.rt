// The machine: the status register, Q, and what stands at the chip when a word starts and when it ends.
#![tactic(auto)]

ghost use Rattle.std.specs.Prelude.{◌≡◌, ◌+◌, ◌*◌, ◌^◌, ◌<◌, ◌≤◌};
ghost use Rattle.bits.specs.Bits.{choose};
ghost use Rattle.machine.specs.Status.{worked_out, gathered, spread_out, as_read, loaded, Good};
ghost use Rattle.machine.specs.Inputs.{bits_of, position_of, width_of, carry_in, link_in, read_by, full_width, result_of, Sound};
ghost use Rattle.machine.specs.Core.{fresh_of, taken, handed_back, shown_by, shown_status};
ghost use Rattle.machine.specs.Pins.{pins_of};

// The borrow switch of carry mode, in which runs hand the status register back; that of borrow mode is 1.
const CARRY_MODE: u32 = 0;

// The status register as fields, without bits 13, 14, 15 and 23. Each flag is 0 or 1; the bit of nibble i is bit 4 i.
// Kept: a flag is a number and no bool, here and in what a word carries. Pages work with flags as arithmetic, without branches, for speed, and the
// fields of a word are the C interface's (include/am29332.h).
#[derive(Clone, Copy)]
pub struct Status {
    pub position: u32,
    pub width: u32,
    pub c: u32,
    pub n: u32,
    pub v: u32,
    pub z: u32,
    pub l: u32,
    pub m: u32,
    pub s: u32,
    pub nibbles: u32,
}

// Q and the status register as a caller holds them between runs: two words.
#[repr(C)]
#[derive(Clone, Copy)]
pub struct Machine {
    pub q: u32,
    pub status: u32,
}

// What the chip keeps between two words: Q and the status register. Made from a `Machine` by `enter`, and into one again by `leave`.
#[derive(Clone, Copy)]
pub struct Core {
    pub q: u32,
    pub status: Status,
}

// What a word meets: its byte code I8 I7, position and width, macro select, carry and link, borrow; the A and B inputs; Q and
// the status register.
// Kept: that it is in range (`Sound`) stands in the contract of each page and not in this type. The pages are public functions, named in
// docs/FUNCTIONS.md, and some take what need not be in range; a type would ask more of who calls those. So it is with `Good` of a status.
#[derive(Clone, Copy)]
pub struct Inputs {
    pub code: u32,
    pub position: u32,
    pub width: u32,
    pub select: u32,
    pub carry: u32,
    pub link: u32,
    pub borrow: u32,
    pub a: u32,
    pub b: u32,
    pub q: u32,
    pub status: Status,
}

// What it leaves: the Y bus, Q and the status register.
// Kept: pages name all three fields, as their definitions do; `..o` would leave one of them out of sight.
#[derive(Clone, Copy)]
pub struct Outputs {
    pub y: u32,
    pub q: u32,
    pub status: Status,
}

// What one executed word shows: Y, its borrow switch, by which its status is read, and the core after it.
#[derive(Clone, Copy)]
pub struct Shown {
    pub y: u32,
    pub borrow: u32,
    pub core: Core,
}

impl Machine {
    pub fn fresh() -> Machine
        ensures { result ≡ fresh_of }
    {
        Machine { q: 0, status: 0 }
    }

    // Taken in: bits 13, 14, 15 and 23 of the status are ignored.
    // Kept: `enter` and `leave` and no From: they are named in docs/FUNCTIONS.md, and `leave` asks that the status is in range.
    pub fn enter(self) -> Core
        ensures { result ≡ taken self }
    {
        Core {
            q: self.q,
            status: Status::load(self.status),
        }
    }
}

impl Core {
    // Handed back: those four bits are worked out, bit 13 in carry mode whatever words ran.
    pub fn leave(self) -> Machine
        requires { Good self.status }
        ensures { result ≡ handed_back self }
    {
        Machine {
            q: self.q,
            status: self.status.read(CARRY_MODE),
        }
    }
}

impl Outputs {
    // What is kept of it and shown, of a word with the given borrow switch.
    pub fn shown(self, borrow: u32) -> Shown
        ensures { result ≡ shown_by borrow self }
    {
        Shown {
            y: self.y,
            borrow,
            core: Core {
                q: self.q,
                status: self.status,
            },
        }
    }
}

impl Shown {
    // The status register as the word that ran reads it: what a single word answers and a trace's line prints.
    pub fn status(self) -> u32
        requires { Good self.core.status }
        ensures { result ≡ shown_status self }
    {
        self.core.status.read(self.borrow)
    }
}

impl Status {
    // Bit weights (figure 3). The position bits start at weight 1.
    pub const WIDTH: u32 = 0x100;

    pub const UNSIGNED_LE: u32 = 0x2000;

    pub const C: u32 = 0x1_0000;

    pub const N: u32 = 0x2_0000;

    pub const V: u32 = 0x4_0000;

    pub const Z: u32 = 0x8_0000;

    pub const L: u32 = 0x10_0000;

    pub const M: u32 = 0x20_0000;

    pub const S: u32 = 0x40_0000;

    pub const NIBBLES: u32 = 0x100_0000;

    // A word loaded into the register: bits 13, 14, 15 and 23 are ignored.
    #[tactic(auto, unfolding(crate::specs::Status::loaded))]
    pub fn load(x: u32) -> Status
        ensures { result ≡ loaded x }
    {
        Status {
            position: x % 256,
            width: x / Self::WIDTH % 32,
            c: x / Self::C % 2,
            n: x / Self::N % 2,
            v: x / Self::V % 2,
            z: x / Self::Z % 2,
            l: x / Self::L % 2,
            m: x / Self::M % 2,
            s: x / Self::S % 2,
            nibbles: spread(x / Self::NIBBLES),
        }
    }

    // The register field by field, for an operation to change. Where one takes it whole and changes some fields, the compiler would copy two
    // neighbours that it leaves alone as one number of 64 bits, and then do so in the whole run, and take them apart again for each word
    // (docs/SPEED.md).
    pub fn held(self) -> Status
        ensures { result ≡ self }
    {
        Status {
            position: self.position,
            width: self.width,
            c: self.c,
            n: self.n,
            v: self.v,
            z: self.z,
            l: self.l,
            m: self.m,
            s: self.s,
            nibbles: self.nibbles,
        }
    }

    // Each flag with those of bits 13 to 15 that it counts in: C in 13, N and V in 14 and 15, Z in 13 and 15.
    const C_13: u32 = 0x1_2000;

    const N_14_15: u32 = 0x2_c000;

    const V_14_15: u32 = 0x4_c000;

    const Z_13_15: u32 = 0x8_a000;

    // Bits 13 to 19 in their places: where one bit is of two flags, N and V are exclusive, C and Z are not; in bit 13 C counts by the switch.
    fn flags(self, borrow: u32) -> u32
        requires { Good self }
        ensures { (result ≡ worked_out borrow self * 2 ^ 13 + self.c * 2 ^ 16 + self.n * 2 ^ 17 + self.v * 2 ^ 18 + self.z * 2 ^ 19) × (result < 2 ^ 20) }
    {
        let turned = turn(borrow);
        ((self.n * Self::N_14_15) ^ (self.v * Self::V_14_15))
            | ((self.c * Self::C_13) ^ turned)
            | (self.z * Self::Z_13_15)
    }

    // The register as it is read under a borrow switch.
    #[tactic(auto, unfolding(crate::specs::Status::as_read))]
    pub fn read(self, borrow: u32) -> u32
        requires { Good self }
        ensures { result ≡ as_read borrow self }
    {
        let flags = self.flags(borrow);
        self.position
            + self.width * Self::WIDTH
            + flags
            + self.l * Self::L
            + self.m * Self::M
            + self.s * Self::S
            + gather(self.nibbles)
    }

    // The pins C, Z, N, V and L, as five bits in that order: what a front panel shows of the register after a word.
    pub fn pins(self) -> u32
        requires { Good self }
        ensures { result ≡ pins_of self }
    {
        self.c * 16 + self.z * 8 + self.n * 4 + self.v * 2 + self.l
    }

    // Those that a status word shows where no word ran.
    #[tactic(auto, using(crate::proofs::Round::loaded_good))]
    pub fn pins_in(x: u32) -> u32
        ensures { result ≡ pins_of (loaded x) }
    {
        Self::load(x).pins()
    }
}

impl Inputs {
    // The number of selected bits.
    pub fn bits(self) -> u32
        requires { Sound self }
        ensures { (result ≡ bits_of self) × (8 ≤ result) × (result ≤ 32) }
    {
        bits::selected_bits(self.code)
    }

    // The position that I8 chooses.
    pub fn position(self) -> u32
        requires { Sound self }
        ensures { (result ≡ position_of self) × (result < 64) }
    {
        bits::choose(self.code / 2, self.position, self.status.position % 64)
    }

    // The width that I7 chooses, 1 to 32.
    pub fn width(self) -> u32
        requires { Sound self }
        ensures { (result ≡ width_of self) × (1 ≤ result) × (result ≤ 32) }
    {
        full_width(bits::choose(self.code % 2, self.width, self.status.width))
    }

    // The carry that macro select chooses.
    pub fn carry_in(self) -> u32
        requires { Sound self }
        ensures { (result ≡ carry_in self) × (result < 2) }
    {
        bits::choose(self.select, self.status.c, self.carry)
    }

    // The link that macro select chooses.
    pub fn link_in(self) -> u32
        requires { Sound self }
        ensures { (result ≡ link_in self) × (result < 2) }
    {
        bits::choose(self.select, self.status.l, self.link)
    }

    // The status register as this word reads it, by its own borrow switch: the only way in which a page reads it.
    pub fn read(self, status: Status) -> u32
        requires { Good status }
        ensures { result ≡ read_by self status }
    {
        status.read(self.borrow)
    }

    // What most words leave: r in the selected bytes, u in the others, Z and N of r.
    pub fn result(self, r: u32, u: u32) -> Outputs
        requires { Sound self }
        ensures { result ≡ result_of self r u }
    {
        let n = self.bits();
        let mut s = self.status.held();
        s.z = bits::is_zero(r, n);
        s.n = bits::sign(r, n);
        Outputs {
            y: bits::merge(r, u, n),
            q: self.q,
            status: s,
        }
    }
}

// What turns C over in bit 13 (EXTBIT-STAT, note 2): in carry mode it counts there as (not C), in borrow mode as it is.
fn turn(borrow: u32) -> u32
    ensures { result ≡ choose borrow 0x2000 0 }
{
    bits::choose(borrow, Status::UNSIGNED_LE, 0)
}

// Width 0 stands for 32 (table 2): 32 less what w lacks of it, so that no test is needed for width 0.
fn full_width(w: u32) -> u32
    requires { w < 32 }
    ensures { (result ≡ full_width w) × (1 ≤ result) × (result ≤ 32) }
{
    32 - (32 - w) % 32
}

// The nibble bits read: two at a time into each byte, and the four bytes together at the top by one product.
#[tactic(auto, using(crate::proofs::Nibbles::gathering))]
fn gather(x: u32) -> u32
    requires { spread_out 8 (gathered 8 x) ≡ x }
    ensures { (result ≡ gathered 8 x * 2 ^ 24) × (result ≤ 0xff00_0000) }
{
    let pairs = (x | (x >> 3)) & 0x0303_0303;
    ((pairs as u64 * 0x104_1040) & 0xff00_0000) as u32
}

// The nibble bits loaded: the upper half of the bits goes up, then the upper half of each half, then that of each pair.
#[tactic(auto, using(crate::proofs::Nibbles::spreading))]
fn spread(x: u32) -> u32
    requires { x < 256 }
    ensures { result ≡ spread_out 8 x }
{
    let halves = (x * 0x1001) & 0x000f_000f;
    let pairs = (halves * 0x41) & 0x0303_0303;
    (pairs * 9) & 0x1111_1111
}
