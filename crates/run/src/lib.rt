// Runs a sheet on a lent file of registers.
#![tactic(auto)]

ghost use Rattle.std.specs.Prelude.{◌≡◌, [], ◌∷◌, ℕ, ◌+◌, ◌-◌, ◌^◌, ◌≤◌, ◌<◌, length, IsOk};
ghost use Rattle.reasons.specs.Reasons.{answer_numbers};
ghost use Rattle.machine.specs.Status.{Good};
ghost use Rattle.machine.specs.Pins.{pins_in};
ghost use Rattle.chip.specs.Lists.{state};
ghost use Rattle.sheet.specs.Sheet.{sheet_of, words_of, word_at, executions_of, between, WordReady, Ready};
ghost use Rattle.run.specs.Run.{Stepped, Went, ended, run_of, run_outcome, in_parts};
ghost use Rattle.run.specs.Step.{standing, halted, no_word, performed_on, one_word_of};

use chip::{SingleWord, Word};
use machine::{Core, Inputs, Machine, Shown, Status};
use reasons::Refusal;
use sheet::Which;

// What a run answers: the number of words run, or why it is refused; Q and status.
#[derive(Clone, Copy)]
pub struct RunAnswer {
    pub outcome: Result<usize, Refusal>,
    pub machine: Machine,
}

// What one word of a sheet answers: the number of words run, 1 or 0, or why it is refused; Y, its parity and the pins as a single word answers
// them; Q and status.
#[derive(Clone, Copy)]
pub struct StepAnswer {
    pub outcome: Result<usize, Refusal>,
    pub y: u32,
    pub parity: u32,
    pub machine: Machine,
    pub pins: u32,
}

// What the chip keeps while words run, and how many have run.
#[derive(Clone, Copy)]
pub struct Going {
    pub core: Core,
    pub count: usize,
}

// ---- one word

// One word: A and B are read from the file, and Y is stored only when write is 1.
fn step(word: Word, file: &mut [u32], core: Core) -> Shown
    requires { WordReady (length file.old) word × Good core.status }
    ensures { Stepped word (state file.old core) file.new result }
{
    let a = word.a as usize;
    let b = word.b as usize;
    let y = word.y as usize;
    let x = Inputs {
        code: word.code,
        position: word.position,
        width: word.width,
        select: word.select,
        carry: word.carry,
        link: word.link,
        borrow: word.borrow,
        a: file[a],
        b: file[b],
        q: core.q,
        status: core.status,
    };
    let shown = dispatch::operate(word.opcode, x).shown(word.borrow);
    if word.write == 1 {
        file[y] = shown.y;
        return shown;
    }
    shown
}

// Execution `index` of one of two sheets, and what it shows. Public for the trace, which shows a run word by word: it has checked the sheet, so
// this checks nothing again.
pub fn step_at<'a>(
    main: &'a [u8],
    handler: &'a [u8],
    of: Which,
    index: usize,
    file: &mut [u32],
    core: Core,
) -> Shown
    requires ready { Ready (sheet_of of main.now handler.now) (length file.old) × Good core.status }
    requires index_bound { index < words_of (sheet_of of main.now handler.now) }
    ensures { Stepped (word_at (sheet_of of main.now handler.now) index) (state file.old core) file.new result }
{
    step(sheet::word_at(main, handler, of, index), file, core)
}

// ---- the executions one after another

// One more word, of one of two sheets, and one more counted.
fn advance<'a>(
    main: &'a [u8],
    handler: &'a [u8],
    of: Which,
    index: usize,
    file: &mut [u32],
    going: Going,
) -> Going
    requires ready { Ready (sheet_of of main.now handler.now) (length file.old) × Good going.core.status }
    requires index_bound { (index < words_of (sheet_of of main.now handler.now)) × (going.count + 1 < 2 ^ 64) }
    ensures { Went (word_at (sheet_of of main.now handler.now) index ∷ []) file.old going file.new result }
{
    let shown = step_at(main, handler, of, index, file, going.core);
    Going {
        core: shown.core,
        count: going.count + 1,
    }
}

// The executions from `from` up to `to` of one of two sheets, counted as they run. Public for the crate above, which has checked both sheets.
// Kept: that the sheet was accepted (`Ready`) and the register file are arguments of each: public functions, and the paper's lent slice of `u32`.
pub fn span<'a>(
    main: &'a [u8],
    handler: &'a [u8],
    of: Which,
    file: &mut [u32],
    going: Going,
    from: usize,
    to: usize,
) -> Going
    requires ready { Ready (sheet_of of main.now handler.now) (length file.old) × Good going.core.status }
    requires from_le_to { (from ≤ to) × (to ≤ length (executions_of (sheet_of of main.now handler.now))) × (going.count + (to - from) < 2 ^ 64) }
    ensures { Went (between from to (executions_of (sheet_of of main.now handler.now))) file.old going file.new result }
{
    let mut at = going;
    for index in from..to {
        at = advance(main, handler, of, index, file, at);
    }
    at
}

// ---- a whole run

// Runs a sheet from execution `start` on, at most `allowance` of them.
pub fn run(
    sheet: &[u8],
    file: &mut [u32],
    machine: Machine,
    start: usize,
    allowance: usize,
) -> RunAnswer
    ensures file_after { ended result file.new ≡ run_of sheet.now file.old machine start allowance }
    ensures numbers { answer_numbers result.outcome ≡ run_outcome sheet.now (length file.old) start allowance }
    ensures in_parts { IsOk result.outcome → (a b : ℕ) → a + b ≡ allowance
        → ended result file.new ≡ in_parts sheet.now file.old machine start a b }
{
    if let Err(refusal) = sheet::check_start(sheet, file.len(), start) {
        return RunAnswer {
            outcome: Err(refusal),
            machine,
        };
    }
    let count = allowance.min(sheet::executions(sheet) - start);
    let first = Going {
        core: machine.enter(),
        count: 0,
    };
    let last = span(sheet, sheet, Which::Main, file, first, start, start + count);
    RunAnswer {
        outcome: Ok(last.count),
        machine: last.core.leave(),
    }
}

// ---- one word by itself, for a front panel or a debugger
// It goes through `chip::single_word`, not through `step`: with a second caller the compiler would no longer expand `step` into the loop of a run.

// No word ran: Y and its parity are 0, and the pins show the status.
fn no_word(outcome: Result<usize, Refusal>, machine: Machine) -> StepAnswer
    ensures { result ≡ no_word outcome machine }
{
    StepAnswer {
        outcome,
        y: 0,
        parity: 0,
        machine,
        pins: Status::pins_in(machine.status),
    }
}

// What stands at the chip for a word: its fields, registers A and B, Q and status as they were handed in.
#[tactic(auto, unfolding(chip::specs::Lists::read_at))]
fn at_chip(word: Word, file: &[u32], machine: Machine) -> SingleWord
    requires { WordReady (length file.now) word }
    ensures { result ≡ standing word file.now machine }
{
    let first = word.a as usize;
    let second = word.b as usize;
    SingleWord {
        opcode: word.opcode,
        code: word.code,
        position: word.position,
        width: word.width,
        select: word.select,
        carry: word.carry,
        link: word.link,
        borrow: word.borrow,
        a: file[first],
        b: file[second],
        q: machine.q,
        status: machine.status,
    }
}

// A word of a sheet that was checked, as a single word; Y is stored only when write is 1.
#[tactic(auto, unfolding(chip::specs::Lists::store_at))]
fn perform(word: Word, file: &mut [u32], machine: Machine) -> StepAnswer
    requires { WordReady (length file.old) word }
    ensures { halted result file.new ≡ performed_on word file.old machine }
{
    let single = chip::single_word(at_chip(word, file, machine));
    let answer = StepAnswer {
        outcome: Ok(1),
        y: single.y,
        parity: single.parity,
        machine: Machine {
            q: single.q,
            status: single.status,
        },
        pins: single.pins,
    };
    if word.write != 0 {
        let to = word.y as usize;
        file[to] = single.y;
        return answer;
    }
    answer
}

// Runs execution `start` of a sheet, if there is one, and shows what it leaves.
pub fn one_word(sheet: &[u8], file: &mut [u32], machine: Machine, start: usize) -> StepAnswer
    ensures file_after { halted result file.new ≡ one_word_of sheet.now file.old machine start }
    ensures numbers { answer_numbers result.outcome ≡ run_outcome sheet.now (length file.old) start 1 }
    ensures pins { result.pins ≡ pins_in result.machine.status }
{
    if let Err(refusal) = sheet::check_start(sheet, file.len(), start) {
        return no_word(Err(refusal), machine);
    }
    if sheet::executions(sheet) <= start {
        return no_word(Ok(0), machine.enter().leave());
    }
    perform(
        sheet::word_at(sheet, sheet, Which::Main, start),
        file,
        machine,
    )
}
