// Refusals told to people: the trace's last line, and after it the reason's name, the place, and what was expected there. And what the programs
// `list` and `assemble` do: a call, and its output or its refusal written.
#![tactic(auto)]

ghost use Rattle.std.specs.Prelude.{◌≡◌, ◌+◌, ◌≤◌, ◌<◌, ◌%◌, length, IfOk};
ghost use Rattle.text.specs.Ascii.{ascii};
ghost use Rattle.text.specs.Fill.{Added, Written};
ghost use Rattle.telling.specs.Telling.{name_of, expected_of, placed, digits_in, plain_of, place_by, numbers_of, told_of, ShownBy};

use reasons::{Reason, Refusal, refuse_if};

// The bytes of the two numbers with their blanks.
const NUMBERS: usize = 8;

// ---- parts of the line

// Reason and place in numbers, each with a blank after it.
fn numbers(reason: Reason, place: usize) -> [u8; NUMBERS]
    ensures { result ≡ numbers_of reason place }
{
    let n = text::decimal::<2>(reasons::number(reason) as u64);
    let p = text::hex::<4>((place % 65536) as u64);
    [n[0], n[1], b' ', p[0], p[1], p[2], p[3], b' ']
}

// A reason's name, and what was expected where it is given.
fn words(reason: Reason) -> (&'static [u8], &'static [u8])
    ensures name { result.0.now ≡ ascii (name_of reason) }
    ensures expected { result.1.now ≡ ascii (expected_of reason) }
{
    match reason {
        Reason::Done => (b"Done", b"nothing else"),
        Reason::Opcode => (b"Opcode", b"an opcode that has a page in the manual"),
        Reason::Inputs => (
            b"Inputs",
            b"code 0 to 3, position 0 to 63, width 0 to 31, registers 0 to 63, switches 0 or 1",
        ),
        Reason::Short => (b"Short", b"4 bytes or more"),
        Reason::Version => (b"Version", b"version 1"),
        Reason::Header => (
            b"Header",
            b"1 to 64 registers, and in a sheet zero bits after their number",
        ),
        Reason::Length => (
            b"Length",
            b"4 bytes, and 6 for each word that the header counts",
        ),
        Reason::File => (b"File", b"as many registers as the sheet declares"),
        Reason::Spare => (b"Spare", b"a word that ends in five zero bits"),
        Reason::Register => (b"Register", b"registers below the number that is declared"),
        Reason::Start => (b"Start", b"a start that is not past the last word"),
        Reason::Form => (b"Form", b"a handler of the form"),
        Reason::Overlap => (b"Overlap", b"no register that both sheets name"),
        Reason::Schedule => (
            b"Schedule",
            b"boundaries that do not fall, within the main list",
        ),
        Reason::Room => (
            b"Room",
            b"an output that fits its buffer, and an input that fits the program's",
        ),
        Reason::Text => (
            b"Text",
            b"MNEMONIC code= position= width= A= B= Y= and the switches that are on; in line 0 version= registers=",
        ),
        Reason::Count => (b"Count", b"4,095 words or fewer"),
        Reason::Idle => (b"Idle", b"register Y 0 in a word without write"),
    }
}

// Whether its place is a word, or the line of one.
fn is_placed(reason: Reason) -> bool
    ensures { result ≡ placed reason }
{
    matches!(
        reason,
        Reason::Opcode
            | Reason::Inputs
            | Reason::Spare
            | Reason::Register
            | Reason::Text
            | Reason::Idle
    )
}

// How many of its low five decimal digits a number has without zeros in front.
fn digits_in(n: u32) -> usize
    ensures { (result ≡ digits_in n) × (result ≤ 5) }
{
    match n {
        0..=9 => 1,
        10..=99 => 2,
        100..=999 => 3,
        1000..=9999 => 4,
        _ => 5,
    }
}

// A number in decimal.
fn put_plain(n: usize, text: &mut [u8], at: usize) -> usize
    requires { at + 5 ≤ length text.old }
    ensures { Added (plain_of n) at text.old result text.new }
{
    let low = (n % 100000) as u32;
    let five = text::decimal::<5>(low as u64);
    let zeros = 5 - digits_in(low);
    text::put(&five[zeros..], text, at)
}

// The place, with what is counted.
fn put_place(reason: Reason, place: usize, counted: &[u8], text: &mut [u8], at: usize) -> usize
    requires { at + length counted.now + 10 ≤ length text.old }
    ensures { Added (place_by (placed reason) counted.now place) at text.old result text.new }
{
    if !is_placed(reason) {
        return at;
    }
    let what = text::put(b" in ", text, at);
    let blank = text::put(counted, text, what);
    let number = text::put(b" ", text, blank);
    put_plain(place, text, number)
}

// ---- the line

// A refusal's line at the start of a text; how many bytes it has.
pub fn tell(reason: Reason, place: usize, counted: &[u8], text: &mut [u8]) -> usize
    requires { (256 ≤ length text.old) × (length counted.now ≤ 8) }
    ensures { Written (told_of reason place counted.now) text.old result text.new }
{
    let two = numbers(reason, place);
    let (name, expected) = words(reason);
    let start = text::put(&two, text, 0);
    let spot = text::put(name, text, start);
    let colon = put_place(reason, place, counted, text, spot);
    let what = text::put(b": expected ", text, colon);
    let end = text::put(expected, text, what);
    text::put(b"\n", text, end)
}

// ---- answers

// What is shown of an answer: its output, which stands at the start of the buffer, or a refusal's line there; how many bytes it has.
fn shown(answer: Result<usize, Refusal>, counted: &[u8], buffer: &mut [u8]) -> usize
    requires { (256 ≤ length buffer.old) × (length counted.now ≤ 8) × IfOk answer (λ bytes. bytes ≤ length buffer.old) }
    ensures upper_bound { result ≤ length buffer.old }
    ensures line { ShownBy answer counted.now buffer.old result buffer.new }
{
    match answer {
        Ok(bytes) => bytes,
        Err(refusal) => tell(refusal.reason, refusal.place, counted, buffer),
    }
}

// Where an answer of the assembler goes: a sheet to standard output, a refusal's line, which is no sheet, to standard error.
// Kept: a number, which is what the kit's `io::write_all` takes.
fn stream(answer: Result<usize, Refusal>) -> i32 {
    if answer.is_ok() { 1 } else { 2 }
}

// The listing of a sheet, or why it has none, to standard output, by way of a buffer.
// Kept: this and `write_sheet` are two programs, with a call, a name for places and a stream each.
pub fn write_listing(sheet: &[u8], text: &mut [u8])
    requires { 256 ≤ length text.old }
{
    let answer = listing::list(sheet, text);
    let n = shown(answer, b"word", text);
    io::write_all(1, &text[..n]);
}

// The sheet of a text; a text that fills what the program has for it may be cut short, and is refused.
fn assembled(text: &[u8], room: usize, sheet: &mut [u8]) -> Result<usize, Refusal>
    ensures { IfOk result (λ bytes. bytes ≤ length sheet.old) }
{
    refuse_if(room <= text.len(), Reason::Room, 0)?;
    reading::read(text, sheet)
}

// That sheet to standard output, by way of a buffer.
pub fn write_sheet(text: &[u8], room: usize, sheet: &mut [u8])
    requires { 256 ≤ length sheet.old }
{
    let answer = assembled(text, room, sheet);
    let n = shown(answer, b"line", sheet);
    io::write_all(stream(answer), &sheet[..n]);
}
