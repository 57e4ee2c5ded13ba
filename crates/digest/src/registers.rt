// A case as a sheet of one word, packed, checked and run on registers. In words: oracle/README.md.
ghost use Rattle.std.specs.Prelude.{◌<◌, ◌≤◌};

use super::draw;
use chip::{SingleWord, Word};
use machine::Machine;
use reasons::Refusal;
use run::RunAnswer;

// What a run is called with beside the sheet's bytes: how many of them, how many registers, the start and the allowance.
#[derive(Clone, Copy)]
pub struct Call {
    pub length: usize,
    pub lent: usize,
    pub start: usize,
    pub allowance: usize,
}

// What may be unusual in a sheet: the registers that it declares, zero bits of the word, version, zero bits of the header; and in a call: start,
// allowance, length of the sheet, registers lent.
#[derive(Clone, Copy)]
pub enum Unusual {
    Registers,
    WordZeros,
    Version,
    HeaderZeros,
    Start,
    Allowance,
    Length,
    Lent,
}

// In the order of the numbers that are drawn.
const UNUSUAL: [Unusual; 8] = [
    Unusual::Registers,
    Unusual::WordZeros,
    Unusual::Version,
    Unusual::HeaderZeros,
    Unusual::Start,
    Unusual::Allowance,
    Unusual::Length,
    Unusual::Lent,
];

// Y's field: 0 in a word that does not write, but for one in sixteen of them.
fn field_y(how: u64, write: u32) -> u32
    ensures { result < 64 }
{
    if (write == 0) & (draw::part(how, 32, 16) != 0) {
        return 0;
    }
    draw::part(how, 12, 64)
}

// The word of a case, with its registers and whether Y is written.
fn word_of(case: SingleWord, how: u64) -> Word
    ensures { (result.a < 64) × (result.b < 64) × (result.y < 64) × (result.write < 2) }
{
    let write = draw::part(how, 18, 2);
    Word {
        opcode: case.opcode,
        code: case.code,
        position: case.position,
        width: case.width,
        a: draw::part(how, 0, 64),
        b: draw::part(how, 6, 64),
        y: field_y(how, write),
        write,
        select: case.select,
        carry: case.carry,
        link: case.link,
        borrow: case.borrow,
    }
}

// A into its register, then B into its.
fn put_both(file: &mut [u32; 64], word: Word, a: u32, b: u32)
    requires { (word.a < 64) × (word.b < 64) }
{
    file[word.a as usize] = a;
    file[word.b as usize] = b;
}

// What is unusual, one run in sixteen.
fn kind_of(how: u64) -> Option<Unusual> {
    if draw::part(how, 19, 16) != 0 {
        return None;
    }
    Some(UNUSUAL[draw::part(how, 23, 8) as usize])
}

// The unusual sheets.
fn spoil(sheet: &mut [u8; 16], kind: Option<Unusual>, n: u8)
    requires { n < 64 }
{
    match kind {
        Some(Unusual::Registers) => sheet[2] = 2 * n,
        Some(Unusual::WordZeros) => sheet[9] |= n % 32,
        Some(Unusual::Version) => sheet[0] = n,
        Some(Unusual::HeaderZeros) => sheet[3] = n,
        _ => {}
    }
}

// The unusual calls.
fn call_of(kind: Option<Unusual>, n: usize) -> Call
    requires { n < 64 }
    ensures { (result.length ≤ 16) × (result.lent ≤ 64) }
{
    let mut call = Call {
        length: 10,
        lent: 64,
        start: 0,
        allowance: 1,
    };
    match kind {
        Some(Unusual::Start) => call.start = n % 4,
        Some(Unusual::Allowance) => call.allowance = n % 4,
        Some(Unusual::Length) => call.length = n % 16,
        Some(Unusual::Lent) => call.lent = n,
        _ => {}
    }
    call
}

// A sheet of one word and 64 registers, the word not yet there, and room for bytes after it.
fn blank() -> [u8; 16] {
    [0x10, 0x01, 0x80, 0, 0, 0, 0, 0, 0, 0, 0, 0, 0, 0, 0, 0]
}

// Opcode, Y and write in their places.
fn put_fields(sheet: &mut [u8; 16], word: Word)
    requires { (word.y < 64) × (word.write < 2) }
{
    sheet[4] = (word.opcode % 128) as u8 * 2 + sheet[4] % 2;
    sheet[8] = (word.y * 4 + word.write * 2) as u8 + sheet[8] % 2;
}

// The word packed into the sheet, and what packing answers. Opcode, Y and write are put there even where the word is refused.
fn put_word(sheet: &mut [u8; 16], word: Word) -> Result<(), Refusal>
    requires { (word.y < 64) × (word.write < 2) }
{
    let packed = packing::pack(word, &mut sheet[4..10]);
    put_fields(sheet, word);
    packed
}

// A run as it is called.
fn called(sheet: &[u8; 16], file: &mut [u32; 64], machine: Machine, call: Call) -> RunAnswer
    requires { (call.length ≤ 16) × (call.lent ≤ 64) }
{
    run::run(
        &sheet[..call.length],
        &mut file[..call.lent],
        machine,
        call.start,
        call.allowance,
    )
}

// The sum after packing's reason and what a run answers.
fn answered(sum: u64, packed: Result<(), Refusal>, ran: RunAnswer) -> u64 {
    let outcome = reasons::numbered_answer(ran.outcome);
    let numbers = [
        reasons::numbered_check(packed).reason,
        outcome.reason,
        bits::low(outcome.place),
        ran.machine.q,
        ran.machine.status,
    ];
    draw::fold(sum, &numbers)
}

// The sum after one case more, which is run on the registers that the cases before it left.
pub fn run_case(sum: u64, case: SingleWord, how: u64, file: &mut [u32; 64]) -> u64 {
    let word = word_of(case, how);
    put_both(file, word, case.a, case.b);
    let machine = Machine {
        q: case.q,
        status: case.status,
    };
    let kind = kind_of(how);
    let n = draw::part(how, 26, 64);
    let mut sheet = blank();
    let packed = put_word(&mut sheet, word);
    spoil(&mut sheet, kind, n as u8);
    let ran = called(&sheet, file, machine, call_of(kind, n as usize));
    draw::fold(answered(sum, packed, ran), file)
}
