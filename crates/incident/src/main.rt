// The incident's choice (docs/INCIDENT.md) on every pair of eight distances: which word was heard beside which is nearer. It reads the sheet
// of examples/sheets/fifteen.words, packed, and leaves the registers after it; a line has the distances to 'fifteen' and to 'fifty', the word that
// the sheet chose and the nearer word.
#![tactic(auto)]

use lines::print_word;
use machine::Machine;

// How many words the sheet has: SUB on three bytes, EXTBIT-STAT of bit 14, NEG-A, and XOR, AND, XOR to choose register 5 where the bit is 1,
// register 4 where it is 0.
const WORDS: usize = 6;

// Distances on three bytes: around zero, around the ends of the signed numbers, and those of the incident.
const DISTANCES: [u32; 8] = [
    0x00_0000, 0x00_0001, 0x7f_fff0, 0x7f_ffff, 0x80_0000, 0x80_0001, 0xf0_0000, 0xff_ffff,
];

const FIFTEEN: u32 = 0x15;

const FIFTY: u32 = 0x50;

// The word that the sheet chooses, left in register 6.
fn heard(sheet: &[u8], fifteen: u32, fifty: u32) -> u32 {
    let mut file = [fifteen, fifty, 0, 0, FIFTY, FIFTEEN, 0];
    run::run(sheet, &mut file, Machine::fresh(), 0, WORDS);
    file[6]
}

// The word with the lesser distance, by plain comparison: with bit 23 turned over, signed numbers of three bytes are in order.
fn nearer(fifteen: u32, fifty: u32) -> u32 {
    if (fifteen ^ 0x80_0000) < (fifty ^ 0x80_0000) {
        return FIFTEEN;
    }
    FIFTY
}

fn print_choice(sheet: &[u8], fifteen: u32, fifty: u32) {
    print_word(fifteen, b' ');
    print_word(fifty, b' ');
    print_word(heard(sheet, fifteen, fifty), b' ');
    print_word(nearer(fifteen, fifty), b'\n');
}

// A line for each distance to 'fifty'.
fn print_choices(sheet: &[u8], fifteen: u32) {
    for fifty in DISTANCES {
        print_choice(sheet, fifteen, fifty);
    }
}

fn main() {
    let mut sheet = [0u8; 40];
    io::read_full(0, &mut sheet);
    for fifteen in DISTANCES {
        print_choices(&sheet, fifteen);
    }
}
