// Reads interrupted runs with the answers of the independent program, a line each, and reports how many the proved one misses and where the
// first miss is. oracle/interrupts.sh makes the lines: the fields of `oracle interrupts`, the lists filled up with `-` to one width. The fields are
// main sheet, handler sheet, schedule, registers, Q, status; then reason, place, mark, registers, Q, status.
#![tactic(auto)]

use interrupt::Served;
use lines::number_at;
use machine::Machine;

// A line, with its line feed.
type Line = [u8; 4944];

// Whether the registers are those that the line ends with.
fn same_file(line: &Line, file: &[u32]) -> bool {
    let mut after = [0u32; 16];
    let n = lines::numbers(&line[4797..4925], &mut after);
    file == &after[..n]
}

// Whether the answer is the one that the line has.
fn same_answer(line: &Line, answer: Served) -> bool {
    let outcome = answer.numbered();
    outcome.reason == number_at(line, 4782, 2)
        && outcome.place == number_at(line, 4785, 8) as u64
        && answer.mark() == number_at(line, 4794, 2)
        && answer.machine.q == number_at(line, 4926, 8)
        && answer.machine.status == number_at(line, 4935, 8)
}

// Whether the proved run of these gives what the line says.
fn ran<'a>(
    line: &Line,
    main: &'a [u8],
    handler: &'a [u8],
    schedule: &[u16],
    file: &mut [u32],
) -> bool {
    let machine = Machine {
        q: number_at(line, 4764, 8),
        status: number_at(line, 4773, 8),
    };
    let answer = interrupt::interrupted(main, handler, schedule, file, machine);
    same_file(line, file) && same_answer(line, answer)
}

// Whether the proved run of what the line starts with gives what it ends with.
fn right(line: &Line) -> bool {
    let mut main = [0u8; 128];
    let mut handler = [0u8; 128];
    let mut schedule = [0u16; 1030];
    let mut file = [0u32; 16];
    let m = lines::numbers(&line[0..256], &mut main);
    let h = lines::numbers(&line[257..513], &mut handler);
    let s = lines::numbers(&line[514..4634], &mut schedule);
    let n = lines::numbers(&line[4635..4763], &mut file);
    ran(
        line,
        &main[..m],
        &handler[..h],
        &schedule[..s],
        &mut file[..n],
    )
}

fn main() {
    let tally = lines::tallied(&mut [0; 4944], |line| {
        <&Line>::try_from(line).is_ok_and(right)
    });
    lines::print_tally(tally);
}
