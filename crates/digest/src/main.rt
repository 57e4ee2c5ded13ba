// Draws the cases that the independent program draws, runs each on the proved chip twice, as a single word and as a sheet of one word on
// registers, and prints for each opcode number a line with the digest of both. In words: oracle/README.md. The stored output is the independent
// program's.
#![tactic(auto)]

mod draw;
mod registers;

use chip::SingleAnswer;
use draw::{Case, Line};

const CASES: u32 = 102400;

// The sums of an opcode number's line: of the cases as single words, and of the same cases run on registers.
#[derive(Clone, Copy)]
pub struct Sums {
    pub single: u64,
    pub run: u64,
}

// The sum after an answer of the single word: reason, place, Y, parity, Q, status and pins.
fn answered(sum: u64, answer: SingleAnswer) -> u64 {
    let check = reasons::numbered_check(answer.check);
    let numbers = [
        check.reason,
        bits::low(check.place),
        answer.y,
        answer.parity,
        answer.q,
        answer.status,
        answer.pins,
    ];
    draw::fold(sum, &numbers)
}

// Both sums after one case more.
fn tried(sums: Sums, case: Case, file: &mut [u32; 64]) -> Sums {
    let word = case.word;
    Sums {
        single: answered(sums.single, chip::single_word(word)),
        run: registers::run_case(sums.run, word, case.how, file),
    }
}

// The digest of all cases of one opcode number.
fn digest(opcode: u32) -> Sums {
    let mut file = [0u32; 64];
    let mut line = Line::start(opcode);
    let mut sums = Sums { single: 1, run: 1 };
    for i in 0..CASES {
        let case = line.draw_case(i);
        line.seed = case.how;
        sums = tried(sums, case, &mut file);
    }
    sums
}

// A sum's sixteen digits, after a space.
fn print_sum(sum: u64) {
    io::write_all(1, b" ");
    io::write_all(1, &text::hex::<16>(sum));
}

fn report(opcode: u32) {
    let sums = digest(opcode);
    io::write_all(1, &text::hex::<2>(opcode as u64));
    print_sum(sums.single);
    print_sum(sums.run);
    io::write_all(1, b"\n");
}

fn main() {
    for opcode in 0..128 {
        report(opcode);
    }
}
