// The C interface: numbers, slices and plain structs only, for hosts in C and Rust (include/am29332.h). A slice is a pointer and a length
// on the other side. Each function hands its values on to the entry point of the crate that does the work, and its answer back in numbers.
// Kept: numbers for reasons and marks, answers with a number beside what they answer, an export for each call: they are the C interface.
#![tactic(auto)]

ghost use Rattle.std.specs.Prelude.{◌≡◌, ℕ, ◌+◌};
ghost use Rattle.reasons.specs.Reasons.{check_numbers};
ghost use Rattle.machine.specs.Core.{fresh_of};
ghost use Rattle.machine.specs.Pins.{pins_in};
ghost use Rattle.chip.specs.Single.{single_of};
ghost use Rattle.packing.specs.Packing.{pack_of, unpack_of};
ghost use Rattle.sheet.specs.Sheet.{check_of};
ghost use Rattle.sheet.specs.Heading.{heading_of};
ghost use Rattle.handler.specs.Form.{handler_of};
ghost use Rattle.listing.specs.Lister.{list_of};
ghost use Rattle.reading.specs.Reader.{read_of};
ghost use Rattle.run.specs.Run.{run_of, in_parts};
ghost use Rattle.run.specs.Step.{one_word_of};
ghost use Rattle.interrupt.specs.Interrupt.{interrupted_of};
ghost use Rattle.interrupt.specs.Demand3.{NoTrace};
ghost use Rattle.am29332.specs.Numbers.{single_numbers, pack_numbers, unpack_numbers, heading_numbers, wrote_numbers, run_numbers, step_numbers, interrupted_numbers, leaves};
ghost use Rattle.am29332.specs.Version.{library_version};

use chip::{SingleWord, Word};
use machine::Machine;
use reasons::{Outcome, Reason};

// What a single word answers. The parity has a bit for each byte of Y, the highest byte's in bit 3; the pins C, Z, N, V and L are bits 4 to 0.
#[repr(C)]
#[derive(Clone, Copy)]
pub struct Answer {
    pub outcome: Outcome,
    pub y: u32,
    pub parity: u32,
    pub q: u32,
    pub status: u32,
    pub pins: u32,
}

// What unpacking answers.
#[repr(C)]
#[derive(Clone, Copy)]
pub struct Unpacked {
    pub outcome: Outcome,
    pub word: Word,
}

// What a header says: its three numbers are 0 where it is refused.
#[repr(C)]
#[derive(Clone, Copy)]
pub struct Heading {
    pub outcome: Outcome,
    pub version: u32,
    pub words: u32,
    pub registers: u32,
}

// What the lister and the reader answer: how many bytes they wrote, 0 where nothing was written.
#[repr(C)]
#[derive(Clone, Copy)]
pub struct Wrote {
    pub outcome: Outcome,
    pub bytes: u64,
}

// What a run answers: Q and status are those to go on from.
#[repr(C)]
#[derive(Clone, Copy)]
pub struct Ran {
    pub outcome: Outcome,
    pub machine: Machine,
}

// What one word of a sheet answers: Y, its parity and the pins as a single word's, Q and status those to go on from.
#[repr(C)]
#[derive(Clone, Copy)]
pub struct Stepped {
    pub outcome: Outcome,
    pub y: u32,
    pub parity: u32,
    pub machine: Machine,
    pub pins: u32,
}

// What an interrupted run answers. The mark says which sheet the fault is in: 0 neither, 1 main, 2 handler.
#[repr(C)]
#[derive(Clone, Copy)]
pub struct Interrupted {
    pub outcome: Outcome,
    pub machine: Machine,
    pub mark: u32,
}

// The version of this interface: major, minor and patch, the lower two in eight bits each.
#[unsafe(no_mangle)]
pub extern "C" fn am29332_library_version() -> u32
    ensures { result ≡ library_version }
{
    0x04_00_00
}

// A fresh machine.
#[unsafe(no_mangle)]
pub extern "C" fn am29332_fresh() -> Machine
    ensures { result ≡ fresh_of }
{
    Machine::fresh()
}

// One word on what stands at the chip.
#[unsafe(no_mangle)]
pub extern "C" fn am29332_single_word(inputs: SingleWord) -> Answer
    ensures value { result ≡ single_numbers (single_of inputs) }
    ensures pins { result.pins ≡ pins_in result.status }
{
    let answer = chip::single_word(inputs);
    Answer {
        outcome: reasons::numbered_check(answer.check),
        y: answer.y,
        parity: answer.parity,
        q: answer.q,
        status: answer.status,
        pins: answer.pins,
    }
}

// A word into the first six bytes.
#[unsafe(no_mangle)]
pub extern "C" fn am29332_pack(word: Word, bytes: &mut [u8]) -> Outcome
    ensures { leaves result bytes.new ≡ pack_numbers (pack_of word bytes.old) }
{
    reasons::numbered_check(packing::pack(word, bytes))
}

// The word in the first six bytes.
#[unsafe(no_mangle)]
pub extern "C" fn am29332_unpack(bytes: &[u8]) -> Unpacked
    ensures { result ≡ unpack_numbers (unpack_of bytes.now) }
{
    let unpacked = packing::unpack(bytes);
    Unpacked {
        outcome: reasons::numbered_check(unpacked),
        word: packing::word_or_blank(unpacked),
    }
}

// The header in the first four bytes; what follows it is not looked at.
#[unsafe(no_mangle)]
pub extern "C" fn am29332_read_header(sheet: &[u8]) -> Heading
    ensures { result ≡ heading_numbers (heading_of sheet.now) }
{
    match sheet::read_header(sheet) {
        Ok(heading) => Heading {
            outcome: reasons::numbered(Reason::Done, 0),
            version: heading.version,
            words: heading.words,
            registers: heading.registers,
        },
        Err(refusal) => Heading {
            outcome: Outcome::from(refusal),
            version: 0,
            words: 0,
            registers: 0,
        },
    }
}

// A sheet on its own: no file is lent and no start word given.
#[unsafe(no_mangle)]
pub extern "C" fn am29332_check_sheet(sheet: &[u8]) -> Outcome
    ensures { result ≡ check_numbers (check_of sheet.now None None) }
{
    reasons::numbered_check(sheet::check_sheet(sheet))
}

// A sheet handed in as a handler, on its own.
#[unsafe(no_mangle)]
pub extern "C" fn am29332_check_handler(sheet: &[u8]) -> Outcome
    ensures { result ≡ check_numbers (handler_of sheet.now) }
{
    reasons::numbered_check(handler::check_handler(sheet))
}

// A sheet as text that people read, at the start of a lent buffer.
#[tactic(auto, using(crate::proofs::Writing::told))]
#[unsafe(no_mangle)]
pub extern "C" fn am29332_list_sheet(sheet: &[u8], text: &mut [u8]) -> Wrote
    ensures { leaves result text.new ≡ wrote_numbers (list_of sheet.now text.old) }
{
    let listed = listing::list(sheet, text);
    Wrote {
        outcome: reasons::numbered_check(listed),
        bytes: listed.unwrap_or(0) as u64,
    }
}

// Text that people wrote as a sheet, at the start of a lent buffer.
#[tactic(auto, using(crate::proofs::Writing::told))]
#[unsafe(no_mangle)]
pub extern "C" fn am29332_read_listing(text: &[u8], sheet: &mut [u8]) -> Wrote
    ensures { leaves result sheet.new ≡ wrote_numbers (read_of text.now sheet.old) }
{
    let read = reading::read(text, sheet);
    Wrote {
        outcome: reasons::numbered_check(read),
        bytes: read.unwrap_or(0) as u64,
    }
}

// A sheet from word `start` on, at most `allowance` words.
#[unsafe(no_mangle)]
pub extern "C" fn am29332_run(
    sheet: &[u8],
    file: &mut [u32],
    machine: Machine,
    start: u64,
    allowance: u64,
) -> Ran
    ensures file_after { leaves result file.new ≡ run_numbers (run_of sheet.now file.old machine start allowance) }
    ensures in_parts { result.outcome.reason ≡ 0 → (a b : ℕ) → a + b ≡ allowance
        → leaves result file.new ≡ run_numbers (in_parts sheet.now file.old machine start a b) }
{
    let answer = run::run(sheet, file, machine, start as usize, allowance as usize);
    Ran {
        outcome: reasons::numbered_answer(answer.outcome),
        machine: answer.machine,
    }
}

// Word `start` of a sheet alone, and what it shows.
#[unsafe(no_mangle)]
pub extern "C" fn am29332_step(
    sheet: &[u8],
    file: &mut [u32],
    machine: Machine,
    start: u64,
) -> Stepped
    ensures file_after { leaves result file.new ≡ step_numbers (one_word_of sheet.now file.old machine start) }
    ensures pins { result.pins ≡ pins_in result.machine.status }
{
    let answer = run::one_word(sheet, file, machine, start as usize);
    Stepped {
        outcome: reasons::numbered_answer(answer.outcome),
        y: answer.y,
        parity: answer.parity,
        machine: answer.machine,
        pins: answer.pins,
    }
}

// A main sheet from word 0 to its end, with the whole handler let in at each boundary of the schedule.
#[unsafe(no_mangle)]
pub extern "C" fn am29332_interrupted_run<'a>(
    main: &'a [u8],
    handler: &'a [u8],
    schedule: &[u16],
    file: &mut [u32],
    machine: Machine,
) -> Interrupted
    ensures file_after { leaves result file.new
        ≡ interrupted_numbers (interrupted_of main.now handler.now schedule.now file.old machine) }
    ensures no_trace { result.outcome.reason ≡ 0
        → NoTrace main.now handler.now schedule.now file.old machine result.machine file.new }
{
    let answer = interrupt::interrupted(main, handler, schedule, file, machine);
    Interrupted {
        outcome: answer.numbered(),
        machine: answer.machine,
        mark: answer.mark(),
    }
}
