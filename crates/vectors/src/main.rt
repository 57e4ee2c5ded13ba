// Reads cases of the single word with the answers of the independent program, a line each (oracle/README.md has the line), and reports how
// many the proved one misses and where the first miss is.
#![tactic(auto)]

use chip::{SingleAnswer, SingleWord};
use lines::number_at;

// A line, with its line feed.
type Line = [u8; 96];

fn case(line: &Line) -> SingleWord {
    SingleWord {
        opcode: number_at(line, 0, 2),
        code: number_at(line, 3, 2),
        position: number_at(line, 6, 2),
        width: number_at(line, 9, 2),
        select: number_at(line, 12, 2),
        carry: number_at(line, 15, 2),
        link: number_at(line, 18, 2),
        borrow: number_at(line, 21, 2),
        a: number_at(line, 24, 8),
        b: number_at(line, 33, 8),
        q: number_at(line, 42, 8),
        status: number_at(line, 51, 8),
    }
}

// Whether an answer is the one that the line has.
fn same(line: &Line, answer: SingleAnswer) -> bool {
    let outcome = reasons::numbered_check(answer.check);
    outcome.reason == number_at(line, 60, 2)
        && outcome.place == 0
        && answer.parity == number_at(line, 63, 2)
        && answer.y == number_at(line, 66, 8)
        && answer.q == number_at(line, 75, 8)
        && answer.status == number_at(line, 84, 8)
        && answer.pins == number_at(line, 93, 2)
}

fn right(line: &Line) -> bool {
    same(line, chip::single_word(case(line)))
}

fn main() {
    let tally = lines::tallied(&mut [0; 96], |line| {
        <&Line>::try_from(line).is_ok_and(right)
    });
    lines::print_tally(tally);
}
